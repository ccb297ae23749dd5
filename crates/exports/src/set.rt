// What C and Rust link for sets of routines that call each other: the check and the run of a set on lent slices, with the answer as words in a lent slice
// (include/mizzengrape.h).
ghost use Rattle.std.specs.Prelude.{◌≡◌, ◌^◌, ◌<◌, ◌≤◌, length};
ghost use Rattle.rules.specs.Small.{ReadingSmall};
ghost use Rattle.rules.specs.Verdict.{verdict_reads};
ghost use Rattle.answers.specs.Answers.{reads};
ghost use Rattle.interpreter.specs.SmallLaws.{AnswerSmall};
ghost use Rattle.sets.specs.Checked.{verdict_in, routine_in};
ghost use Rattle.sets.specs.Tables.{tables_in};
ghost use Rattle.set_runs.specs.SetRuns.{room_enough};
ghost use Rattle.exports.specs.SetWords.{set_verdict_words, routine_named, set_outcome_words, SetCheckWords, SetRunWords};

use crate::{put_outcome, put_verdict};
use answers::stops::Outcome;
use rules::SetRefusal;
use set_runs::SetOutcome;

// The words of a verdict on a set, and of the routine that it names.
fn put_set_verdict(answer: &mut [u32], verdict: Result<(), SetRefusal>)
    requires { (4 ≤ length answer.old) × ReadingSmall (verdict_reads (verdict_in verdict)) × (routine_in verdict < 2 ^ 32) }
    ensures { answer.new ≡ set_verdict_words verdict answer.old }
{
    match verdict {
        Ok(()) => {
            put_verdict(answer, Ok(()));
            answer[3] = 0;
        }
        Err(SetRefusal { routine, refusal }) => {
            put_verdict(answer, Err(refusal));
            answer[3] = routine as u32;
        }
    }
}

// Checks a set of routines, their tables one after the other. False, and nothing written, where the answer has fewer than four words or the room for one table
// fewer than 7,720.
#[unsafe(no_mangle)]
pub extern "C" fn mizzengrape_check_set(
    tables: &[i32],
    lengths: &[u32],
    member: &mut [i32],
    answer: &mut [u32],
) -> bool
    ensures { SetCheckWords tables.now lengths.now (length member.old) answer.old result answer.new }
{
    if answer.len() < 4 {
        return false;
    }
    let checked = sets::check_set(tables, lengths, member);
    let Some(verdict) = checked else {
        return false;
    };
    put_set_verdict(answer, verdict);
    true
}

// The routine that an outcome names: none where the run is done, for which 0 stands.
fn routine_named(outcome: Outcome, routine: usize) -> usize
    ensures { result ≡ routine_named outcome routine }
{
    match outcome {
        Outcome::Done { .. } => 0,
        _ => routine,
    }
}

// The words of how a run of a set ends, and of the routine that it names.
fn put_set_outcome(answer: &mut [u32], ended: SetOutcome)
    requires { (5 ≤ length answer.old) × AnswerSmall (reads ended.outcome) × (ended.routine < 2 ^ 32) }
    ensures { answer.new ≡ set_outcome_words ended answer.old }
{
    let outcome = ended.outcome;
    put_outcome(answer, outcome);
    answer[4] = routine_named(outcome, ended.routine) as u32;
}

// Runs a set of routines from its last one, `limit` steps at most. False, and nothing written, where the answer has fewer than five words or too little room is
// lent: 7,720 words for a table, 4,096 ends, 16,384 successors.
#[unsafe(no_mangle)]
pub extern "C" fn mizzengrape_run_set(
    tables: &[i32],
    lengths: &[u32],
    directory: &[u32],
    cells: &mut [u32],
    values: &mut [u32],
    origins: &[u32],
    limit: u32,
    member: &mut [i32],
    ends: &mut [u64],
    successors: &mut [u32],
    answer: &mut [u32],
) -> bool
    ensures { SetRunWords (tables_in tables.now lengths.now) (record {
      directory = directory.entry.now;
      cells = cells.old;
      values = values.old;
      origins = origins.now;
    }) limit (room_enough (length member.old) (length ends.old) (length successors.old))
        answer.old result values.new cells.new answer.new }
{
    if answer.len() < 5 {
        return false;
    }
    let ran = set_runs::run_set(
        tables, lengths, directory, cells, values, origins, limit, member, ends, successors,
    );
    let Some(ended) = ran else {
        return false;
    };
    put_set_outcome(answer, ended);
    true
}
