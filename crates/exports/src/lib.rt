// What C and Rust link: the check and the run on lent slices, with the answer as words in a lent slice (include/mizzengrape.h).
#![tactic(auto)]

pub mod dispatch; // dispatch.rt: several routines in turn
pub mod edit; // edit.rt: a table edited with the verdict alongside
pub mod set; // set.rt: routines that call each other

ghost use Rattle.std.specs.Prelude.{[], ◌≡◌, ◌<◌, ◌≤◌, length};
ghost use Rattle.rules.specs.Verdict.{verdict_reads};
ghost use Rattle.rules.specs.Small.{ReadingSmall};
ghost use Rattle.checker.specs.Checks.{verdict_in, report_in};
ghost use Rattle.answers.specs.Answers.{reads};
ghost use Rattle.interpreter.specs.SmallLaws.{AnswerSmall};
ghost use Rattle.exports.specs.Words.{version_number, put_three, put_four, verdict_words, answer_words, CheckAnswer, RunWords, CheckReport};
ghost use Rattle.exports.specs.Numbers.{PutReported, PutAll};

use answers::refusals::Refusal;
use answers::stops::Outcome;
use reports::{Report, has, no_report};

// The version that include/mizzengrape.h gives, as one number.
const VERSION: u32 = 200;

fn put_three(answer: &mut [u32], a: u32, b: u32, c: u32)
    requires { 3 ≤ length answer.old }
    ensures { answer.new ≡ put_three answer.old a b c }
{
    answer[0] = a;
    answer[1] = b;
    answer[2] = c;
}

fn put_four(answer: &mut [u32], a: u32, b: u32, c: u32, d: u32)
    requires { 4 ≤ length answer.old }
    ensures { answer.new ≡ put_four answer.old a b c d }
{
    answer[0] = a;
    answer[1] = b;
    answer[2] = c;
    answer[3] = d;
}

fn put_verdict(answer: &mut [u32], verdict: Result<(), Refusal>)
    requires { (3 ≤ length answer.old) × ReadingSmall (verdict_reads verdict) }
    ensures { answer.new ≡ verdict_words (verdict_reads verdict) answer.old }
{
    match verdict {
        Ok(()) => {
            put_three(answer, 0, 0, 0);
        }
        Err(r) => {
            let number = r.number();
            let place = r.place() as u32;
            let pointer = r.pointer() as u32;
            put_three(answer, number, place, pointer);
        }
    }
}

fn put_outcome(answer: &mut [u32], outcome: Outcome)
    requires { (4 ≤ length answer.old) × AnswerSmall (reads outcome) }
    ensures { answer.new ≡ answer_words (reads outcome) answer.old }
{
    match outcome {
        Outcome::Done { steps } => {
            put_four(answer, 0, steps, 0, 0);
        }
        Outcome::Spent { steps, statement } => {
            let place = statement as u32;
            put_four(answer, 1, steps, place, 0);
        }
        Outcome::Stopped { steps, check } => {
            let place = check.statement() as u32;
            let number = check.number();
            put_four(answer, 2, steps, place, number);
        }
        Outcome::Refused(r) => {
            let number = r.number();
            let place = r.place() as u32;
            let pointer = r.pointer() as u32;
            put_four(answer, 3, number, place, pointer);
        }
    }
}

// The version of the library, so that a program can tell whether its header came with it.
#[unsafe(no_mangle)]
pub extern "C" fn mizzengrape_version() -> u32
    ensures { result ≡ version_number }
{
    VERSION
}

// The verdict that a check answers.
fn verdict_of(checked: Result<Report, Refusal>) -> Result<(), Refusal>
    ensures { result ≡ verdict_in checked }
{
    checked?;
    Ok(())
}

// The report that a check answers: a refused routine has none.
fn report_of(checked: Result<Report, Refusal>) -> Report
    ensures { result.words ≡ report_in checked }
{
    checked.unwrap_or(no_report())
}

// Checks a routine. False, and nothing written, where the answer has fewer than three words.
#[unsafe(no_mangle)]
pub extern "C" fn mizzengrape_check(table: &[i32], answer: &mut [u32]) -> bool
    ensures { CheckAnswer table.now [] answer.old result answer.new }
{
    if answer.len() < 3 {
        return false;
    }
    let listed = [0i32; 0];
    put_verdict(answer, verdict_of(checker::check(table, &listed)));
    true
}

// The statement `at` put at `count`, where it is reported; how many are put then.
fn put_reported(numbers: &mut [u32], report: Report, at: usize, count: usize) -> usize
    requires { (at < 1024) × (count ≤ at) × (1024 ≤ length numbers.old) }
    ensures { PutReported report.words at count numbers.old result numbers.new }
{
    if has(report, at) {
        numbers[count] = at as u32;
        return count + 1;
    }
    count
}

// The reported statements, lowest first, at the front of the slice; how many there are.
fn put_report(numbers: &mut [u32], report: Report) -> u32
    requires { 1024 ≤ length numbers.old }
    ensures { PutAll report.words numbers.old result numbers.new }
{
    let mut count = 0;
    for at in 0..1024 {
        count = put_reported(numbers, report, at, count);
    }
    count as u32
}

// Checks a routine with a list of loop facts, four words an entry. The fourth answer word is the number of accesses reported; their statements are put in
// ascending order at the front of `report`. False, and nothing written, where the answer has fewer than four words or the report fewer than 1,024.
#[unsafe(no_mangle)]
pub extern "C" fn mizzengrape_check_with_facts(
    table: &[i32],
    facts: &[i32],
    report: &mut [u32],
    answer: &mut [u32],
) -> bool
    ensures { CheckReport table.now facts.now answer.old report.old result answer.new
        report.new }
{
    if answer.len() < 4 {
        return false;
    }
    if report.len() < 1024 {
        return false;
    }
    let checked = checker::check(table, facts);
    put_verdict(answer, verdict_of(checked));
    answer[3] = put_report(report, report_of(checked));
    true
}

// Runs a routine with a list of loop facts, four words an entry, `limit` steps at most. False, and nothing written, where the answer has fewer than four words.
#[unsafe(no_mangle)]
pub extern "C" fn mizzengrape_run_with_facts(
    table: &[i32],
    facts: &[i32],
    directory: &[u32],
    cells: &mut [u32],
    values: &mut [u32],
    origins: &[u32],
    limit: u32,
    answer: &mut [u32],
) -> bool
    ensures { RunWords table.now facts.now (record {
      directory = directory.entry.now;
      cells = cells.old;
      values = values.old;
      origins = origins.now;
    }) limit answer.old result values.new cells.new answer.new }
{
    if answer.len() < 4 {
        return false;
    }
    let outcome = interpreter::run(table, facts, directory, cells, values, origins, limit);
    put_outcome(answer, outcome);
    true
}

// The same without a list.
#[unsafe(no_mangle)]
pub extern "C" fn mizzengrape_run(
    table: &[i32],
    directory: &[u32],
    cells: &mut [u32],
    values: &mut [u32],
    origins: &[u32],
    limit: u32,
    answer: &mut [u32],
) -> bool
    ensures { RunWords table.now [] (record {
      directory = directory.entry.now;
      cells = cells.old;
      values = values.old;
      origins = origins.now;
    }) limit answer.old result values.new cells.new answer.new }
{
    let facts = [0i32; 0];
    mizzengrape_run_with_facts(
        table, &facts, directory, cells, values, origins, limit, answer,
    )
}
