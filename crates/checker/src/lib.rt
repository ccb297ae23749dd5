// The checker: the walk over the statements, the verdict, and the report.
#![tactic(auto)]

pub mod sections; // sections.rt: the check of a table that has passed causes 1 to 5
pub mod walk; // walk.rt: the walk over the statements

ghost use Rattle.std.specs.Prelude.{[]};
ghost use Rattle.rules.specs.ByChains.{Judged, Reported};
ghost use Rattle.checker.specs.Checks.{verdict_in, report_in};

use answers::refusals::Refusal;
use reports::Report;
use sections::check_sections;
use table::read_form;

// The check of a routine table with its list of loop facts, four words an entry (an empty list: none): refused, or which of its accesses are reported. The
// report is given by value: nothing is lent for it, and 1,024 bits are small. A routine by itself may call none.
pub fn check(table: &[i32], listed: &[i32]) -> Result<Report, Refusal>
    ensures { Judged [] table.now listed.now (verdict_in result) × Reported table.now listed.now (report_in result) }
{
    let sections = read_form(table)?;
    let callees = [0u32; 0];
    check_sections(table, sections, listed, table, &callees)
}
