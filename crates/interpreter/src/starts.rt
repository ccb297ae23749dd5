// What a run begins with: the routine and what is lent are checked, and what the loop needs is laid out.
ghost use Rattle.std.specs.Prelude.{◌≡◌, cond, [], ◌+◌, ◌*◌, ◌<◌, ◌≤◌, length, set, Ok};
ghost use Rattle.table.specs.Form.{form_of};
ghost use Rattle.rules.specs.Stored.{faults};
ghost use Rattle.steps.specs.Bare.{mark};
ghost use Rattle.interpreter.specs.Marks.{marks, Reports};
ghost use Rattle.interpreter.specs.Starts.{Starts};

use answers::refusals::Refusal;
use blocks::flow::write_successors;
use checker::check;
use entry::ends::lay_ends;
use entry::enter;
use reports::{Report, has};
use rules::read_environment;
use steps::MARK;
use table::read_form;
use words::sections::Sections;

// What is laid out, into the slice that is lent for it.
pub fn copy_ends(laid: [u64; 512], ends: &mut [u64])
    requires { length ends.old ≡ 512 }
    ensures { ends.new ≡ laid }
{
    ends.copy_from_slice(&laid);
}

// A statement that is reported, marked: its second successor is not asked for.
fn mark_one(successors: &mut [u32], at: usize, safe: bool)
    requires { 2 * at + 1 < length successors.old }
    ensures { successors.new ≡ cond safe (set successors.old (2 * at + 1) mark) successors.old }
{
    if safe {
        successors[2 * at + 1] = MARK;
    }
}

// All of those among the first `count`.
fn mark_reported(report: Report, count: usize, successors: &mut [u32])
    requires { (count ≤ 1024) × (2 * count ≤ length successors.old) }
    ensures { successors.new ≡ marks report.words count successors.old }
{
    for at in 0..count {
        mark_one(successors, at, has(report, at));
    }
}

// Of an accepted table of these sections: causes 10 to 12 and 16, then what the loop needs.
fn prepare_sections(
    table: &[i32],
    sections: Sections,
    listed: &[i32],
    directory: &[u32],
    cells: &[u32],
    values: &[u32],
    origins: &[u32],
    ends: &mut [u64],
    successors: &mut [u32],
    report: Report,
) -> Result<Sections, Refusal>
    requires table_value { (form_of table.now ≡ Ok sections) × (faults [] table.now listed.now ≡ []) × Reports table.now listed.now report.words }
    requires ends_len { (length ends.old ≡ 512) × (length successors.old ≡ 2048) }
    ensures { Starts result table.now listed.now (record {
      directory = directory.entry.now;
      cells = cells.now;
      values = values.now;
      origins = origins.now;
    }) ends.new successors.new }
{
    let environment = read_environment(table, sections);
    enter(sections, environment, directory, cells, values, origins)?;
    copy_ends(lay_ends(environment), ends);
    write_successors(table, sections, successors);
    mark_reported(report, sections.statements, successors);
    Ok(sections)
}

// Of an accepted table. (Its form is right, so `?` never ends it here; it would answer what that means.)
// Not inlined: its locals would stand on the stack below the check.
#[inline(never)]
fn prepare_accepted(
    table: &[i32],
    listed: &[i32],
    directory: &[u32],
    cells: &[u32],
    values: &[u32],
    origins: &[u32],
    ends: &mut [u64],
    successors: &mut [u32],
    report: Report,
) -> Result<Sections, Refusal>
    requires listed_value { (faults [] table.now listed.now ≡ []) × Reports table.now listed.now report.words }
    requires ends_len { (length ends.old ≡ 512) × (length successors.old ≡ 2048) }
    ensures { Starts result table.now listed.now (record {
      directory = directory.entry.now;
      cells = cells.now;
      values = values.now;
      origins = origins.now;
    }) ends.new successors.new }
{
    let sections = read_form(table)?;
    prepare_sections(
        table, sections, listed, directory, cells, values, origins, ends, successors, report,
    )
}

// Checks the routine with its list of loop facts and what is lent, and lays out what the loop needs, in slices of 512 and 2,048 numbers.
pub fn prepare(
    table: &[i32],
    listed: &[i32],
    directory: &[u32],
    cells: &[u32],
    values: &[u32],
    origins: &[u32],
    ends: &mut [u64],
    successors: &mut [u32],
) -> Result<Sections, Refusal>
    requires { (length ends.old ≡ 512) × (length successors.old ≡ 2048) }
    ensures { Starts result table.now listed.now (record {
      directory = directory.entry.now;
      cells = cells.now;
      values = values.now;
      origins = origins.now;
    }) ends.new successors.new }
{
    let report = check(table, listed)?;
    prepare_accepted(
        table, listed, directory, cells, values, origins, ends, successors, report,
    )
}
