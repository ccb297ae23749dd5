// A table that has passed causes 1 to 5: the layout, the list of loop facts, the walk. `check` begins with it, and so does each routine of a set.
ghost use Rattle.std.specs.Prelude.{◌≡◌, []};
ghost use Rattle.table.specs.FormLaws.{Formed};
ghost use Rattle.blocks.specs.Layout.{layout};
ghost use Rattle.listed.specs.ListForm.{list_faults};
ghost use Rattle.declared.specs.Callee.{callees_in};
ghost use Rattle.checker.specs.Checks.{ChecksSections};

use crate::walk::walk;
use answers::refusals::Refusal;
use blocks::read_layout;
use declared::force::{frame_of, own_force};
use facts::FactSet;
use listed::check_list;
use reports::{Report, no_report};
use words::sections::Sections;

// The walk over the statements, begun with what is always known and each pointer's own bound.
fn check_statements(
    table: &[i32],
    sections: Sections,
    listed: &[i32],
    words: &[i32],
    callees: &[u32],
) -> Result<Report, Refusal>
    requires { Formed table.now sections × (layout table.now sections ≡ []) × (list_faults table.now sections listed.now ≡ []) }
    ensures { ChecksSections (callees_in words.now callees.now) table.now sections listed.now result }
{
    let statements = sections.statements;
    let walked = walk(
        table,
        sections,
        listed,
        frame_of(table, sections),
        own_force(table, sections),
        0,
        statements,
        statements,
        FactSet::new(),
        no_report(),
        words,
        callees,
    );
    walked.verdict?;
    Ok(walked.report)
}

// Cause 6, then the list and the statements. `callees` are the lengths of the tables that may be called: they stand in `words`, one after
// the other.
pub fn check_sections(
    table: &[i32],
    sections: Sections,
    listed: &[i32],
    words: &[i32],
    callees: &[u32],
) -> Result<Report, Refusal>
    requires { Formed table.now sections }
    ensures { ChecksSections (callees_in words.now callees.now) table.now sections listed.now result }
{
    read_layout(table, sections)?;
    check_list(table, sections, listed)?;
    check_statements(table, sections, listed, words, callees)
}
