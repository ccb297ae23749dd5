// Which edits of a routine table are made, and why the others are refused (point 13).
#![tactic(auto)]

ghost use Rattle.std.specs.Prelude.{◌≡◌, true, ◌≤◌, ◌/◌, ◌<◌, ◌^◌, length};
ghost use Rattle.words.specs.Sections.{in_limits, Limits, table_end};
ghost use Rattle.statements.specs.Statements.{statement_at};
ghost use Rattle.edits.specs.TopLevel.{span_of};
ghost use Rattle.edits.specs.Edited.{text_sections, text_table, text_of};
ghost use Rattle.edits.specs.EditedLaws.{Fits};
ghost use Rattle.plans.specs.Plans.{removed_by, words_by, text_plan, plan_of};
ghost use Rattle.plans.specs.PlanLaws.{placed};

use answers::refusals::Refusal;
use edits::{TextFault, check_text, land, span};
use words::sections::Sections;

// An edit of one top-level statement with its blocks. Of an operation that there is not none is made.
#[derive(Clone, Copy)]
pub enum Edit {
    Insert,
    Replace,
    Remove,
    Unknown,
}

// So many statements make room for so many others.
#[derive(Clone, Copy)]
pub struct Splice {
    pub removed: usize,
    pub added: usize,
}

// How many statements go.
fn removed_by(table: &[i32], sections: Sections, at: usize, edit: Edit) -> usize
    ensures { (result ≡ removed_by edit (span_of (statement_at table.now sections at))) × (result < 2 ^ 33) }
{
    match edit {
        Edit::Insert => 0,
        _ => span(table, sections, at),
    }
}

// How many words come.
fn words_by(edit: Edit, size: usize) -> usize
    ensures { result ≡ words_by edit size }
{
    match edit {
        Edit::Insert | Edit::Replace => size,
        Edit::Remove | Edit::Unknown => 0,
    }
}

// The text is checked.
fn plan_text(
    table: &[i32],
    sections: Sections,
    at: usize,
    removed: usize,
    text: &[i32],
) -> Result<Splice, Refusal>
    requires { Fits sections 0 sections.statements (length text.now / 7) }
    ensures { result ≡ text_plan at (text_of (text_table table.now sections text.now) (text_sections sections text.now)
        (length text.now)) removed (length text.now / 7) }
{
    match check_text(table, sections, text) {
        Ok(()) => Ok(Splice {
            removed,
            added: text.len() / 7,
        }),
        Err(TextFault::Record) => Err(Refusal::StatementRecord(at)),
        Err(TextFault::Layout) => Err(Refusal::BlockLayout(at)),
    }
}

// The way from the statement `from` to the next lands on `at`, and what goes ends before the table's end.
fn is_placed(table: &[i32], sections: Sections, from: usize, at: usize, removed: usize) -> bool
    requires { sections.statements ≤ 1024 }
    ensures { result ≡ placed table.now sections from at removed }
{
    let statements = sections.statements;
    if at > statements {
        return false;
    }
    if land(table, sections, from, at) != at {
        return false;
    }
    removed <= statements - at
}

// The edit of the statement at `at`, in a buffer of `room` words; `from` is a top-level statement at or before it.
pub fn plan_edit(
    table: &[i32],
    room: usize,
    sections: Sections,
    from: usize,
    at: usize,
    edit: Edit,
    text: &[i32],
) -> Result<Splice, Refusal>
    requires { (in_limits sections ≡ true) × Limits sections × (length table.now ≡ table_end sections) }
    ensures { result ≡ plan_of (placed table.now sections from at (removed_by edit (span_of (statement_at table.now sections at))))
        table.now room sections at edit text.now }
{
    let removed = removed_by(table, sections, at, edit);
    if !is_placed(table, sections, from, at, removed) {
        return Err(Refusal::EditPosition(at));
    }
    let words = words_by(edit, text.len());
    let left = 7 * (sections.statements - removed);
    if words > 7168 - left {
        return Err(Refusal::EditPosition(at));
    }
    let size = table.len() - 7 * removed + words;
    if size > room {
        return Err(Refusal::EditPosition(at));
    }
    match edit {
        Edit::Insert => plan_text(table, sections, at, removed, text),
        Edit::Replace => plan_text(table, sections, at, removed, text),
        Edit::Remove => Ok(Splice { removed, added: 0 }),
        Edit::Unknown => Err(Refusal::EditPosition(at)),
    }
}
