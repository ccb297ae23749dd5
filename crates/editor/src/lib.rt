// The editor: a routine table edited with the verdict alongside (point 13).
#![tactic(auto)]

ghost use Rattle.std.specs.Prelude.{◌≡◌, true, ◌≤◌, length, take, Ok};
ghost use Rattle.words.specs.Sections.{in_limits, Limits, table_end};
ghost use Rattle.table.specs.Form.{form_of};
ghost use Rattle.edits.specs.Edited.{edited_sections};
ghost use Rattle.edits.specs.EditedLaws.{Fits};
ghost use Rattle.places.specs.Positions.{place_count};
ghost use Rattle.places.specs.Places.{places, last_place};
ghost use Rattle.editor.specs.Editor.{head_right, head_of, unmade_by, Started, EditCall};
ghost use Rattle.editor.specs.EditLaws.{Lengths, walk_answer, Prepares, MadeBy};

use answers::refusals::Refusal;
use blocks::read_layout;
use edits::{edited_sections, write_edited};
use places::{keep_first, position_at, up_to};
use plans::{Edit, Splice, plan_edit};
use rewalks::{Rewalked, rewalk};
use table::{directory_right, lowest_object, read_form, sections_of};
use words::sections::{Sections, in_limits};

// What a call answers: whether the table was taken or edited; its words now; the verdict on it, or why it was not taken or the edit not made; and how many
// statements were walked.
#[derive(Clone, Copy)]
pub struct Answer {
    pub taken: bool,
    pub length: usize,
    pub verdict: Result<(), Refusal>,
    pub walked: usize,
}

// How many places stay, and the plan.
#[derive(Clone, Copy)]
struct Prepared {
    held: usize,
    plan: Result<Splice, Refusal>,
}

// The answer where nothing changes.
fn refuse(length: usize, refusal: Refusal) -> Answer
    ensures { result ≡ unmade_by length refusal }
{
    Answer {
        taken: false,
        length,
        verdict: Err(refusal),
        walked: 0,
    }
}

// The answer after a walk.
fn answer_of(length: usize, walk: Rewalked) -> Answer
    ensures { result ≡ walk_answer length walk }
{
    let verdict = walk.verdict;
    Answer {
        taken: true,
        length,
        verdict,
        walked: walk.walked,
    }
}

// The first walk over a table that passes causes 1 to 5.
fn start_walk(table: &[i32], sections: Sections, keep: &[u32], store: &mut [u64]) -> Answer
    requires { form_of table.now ≡ Ok sections }
    ensures { Started table.now keep.now store.old result store.new }
{
    let size = table.len();
    let layout = read_layout(table, sections);
    match layout {
        Err(refusal) => refuse(size, refusal),
        Ok(()) => {
            keep_first(store, 0);
            let walk = rewalk(table, sections, keep, store);
            answer_of(size, walk)
        }
    }
}

// The first call: the verdict on the table, and the store anew.
pub fn start(table: &[i32], keep: &[u32], store: &mut [u64]) -> Answer
    ensures { Started table.now keep.now store.old result store.new }
{
    let form = read_form(table);
    match form {
        Err(refusal) => refuse(table.len(), refusal),
        Ok(sections) => start_walk(table, sections, keep, store),
    }
}

// The directory and the objects are right.
fn head_right(table: &[i32], sections: Sections) -> bool
    ensures { result ≡ head_right table.now sections }
{
    if !directory_right(table, sections) {
        return false;
    }
    sections.objects <= lowest_object(table, sections)
}

// Where the last section ends.
fn end_of(sections: Sections) -> usize
    requires { Limits sections }
    ensures { result ≡ table_end sections }
{
    sections.start
        + sections.objects
        + 8 * sections.variables
        + 7 * sections.statements
        + 6 * sections.rows
}

// The sections of the table at the front of the buffer. What an edit leaves is known to read, so that only the directory and the objects are looked at.
fn read_head(buffer: &[i32]) -> Option<Sections>
    ensures { result ≡ head_of buffer.now }
{
    let sections = sections_of(buffer);
    if !in_limits(sections) {
        return None;
    }
    let end = end_of(sections);
    if end > buffer.len() {
        return None;
    }
    if !head_right(&buffer[..end], sections) {
        return None;
    }
    Some(sections)
}

// The position of the last of the first `held` places, else the start.
fn place_before(store: &[u64], held: usize) -> usize
    requires { held ≤ place_count store.now }
    ensures { result ≡ (last_place (take held (places store.now))).position }
{
    if held == 0 {
        return 0;
    }
    position_at(store, held - 1)
}

// How many places stay, and the plan of the edit.
fn prepare(
    table: &[i32],
    room: usize,
    sections: Sections,
    at: usize,
    edit: Edit,
    text: &[i32],
    store: &[u64],
) -> Prepared
    requires { (in_limits sections ≡ true) × Limits sections × (length table.now ≡ table_end sections) }
    ensures { Prepares table.now room sections store.now at edit text.now result }
{
    let held = up_to(store, at);
    let from = place_before(store, held);
    let plan = plan_edit(table, room, sections, from, at, edit, text);
    Prepared { held, plan }
}

// Makes the edit: writes the table, drops the places behind the first `held`, and walks from the last of these.
fn make_edit(
    buffer: &mut [i32],
    sections: Sections,
    at: usize,
    removed: usize,
    added: usize,
    text: &[i32],
    keep: &[u32],
    store: &mut [u64],
    held: usize,
) -> Answer
    requires { Fits sections at removed added × (table_end sections ≤ length buffer.old)
        × (table_end (edited_sections sections removed added) ≤ length buffer.old) × Lengths (take (table_end sections) buffer.old) sections × (held ≤ place_count store.old) }
    ensures { MadeBy buffer.old sections at removed added text.now keep.now store.old held result
        buffer.new store.new }
{
    write_edited(buffer, sections, at, removed, added, text);
    keep_first(store, held);
    let next = edited_sections(sections, removed, added);
    let end = end_of(next);
    let walk = rewalk(&buffer[..end], next, keep, store);
    answer_of(end, walk)
}

// One edit of the table at the front of the buffer.
pub fn edit_table(
    buffer: &mut [i32],
    at: usize,
    edit: Edit,
    text: &[i32],
    keep: &[u32],
    store: &mut [u64],
) -> Answer
    ensures { EditCall buffer.old at edit text.now keep.now store.old result buffer.new
        store.new }
{
    let room = buffer.len();
    let head = read_head(buffer);
    let Some(sections) = head else {
        return refuse(0, Refusal::EditPosition(at));
    };
    let size = end_of(sections);
    let prepared = prepare(&buffer[..size], room, sections, at, edit, text, store);
    let held = prepared.held;
    let plan = prepared.plan;
    match plan {
        Ok(Splice { removed, added }) => make_edit(
            buffer, sections, at, removed, added, text, keep, store, held,
        ),
        Err(refusal) => refuse(size, refusal),
    }
}
