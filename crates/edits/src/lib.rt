// Edits of a routine table: one top-level statement with its blocks inserted, replaced or removed (point 13).
#![tactic(auto)]

ghost use Rattle.std.specs.Prelude.{◌≡◌, true, ◌+◌, ◌-◌, ◌*◌, ◌/◌, ◌^◌, ◌<◌, ◌≤◌, pos, length, get_or, drop, ◌++◌};
ghost use Rattle.words.specs.Sections.{in_limits, table_end};
ghost use Rattle.statements.specs.Statements.{statement_at};
ghost use Rattle.arrays.specs.Overwritten.{Overwritten};
ghost use Rattle.edits.specs.TopLevel.{span_of};
ghost use Rattle.edits.specs.Cuts.{landing};
ghost use Rattle.edits.specs.Edited.{edited_sections, edited_word, edited, text_sections, text_table, text_of};
ghost use Rattle.edits.specs.EditedLaws.{Fits};

use blocks::read_layout;
use statements::{Statement, read_statement};
use table::lowest_statement;
use words::sections::Sections;
use words::signed::{number_word, signed_word};

// What causes 5 and 6 find in a text.
#[derive(Clone, Copy)]
pub enum TextFault {
    Record,
    Layout,
}

// How many statements the statement at `at` is, with its blocks.
pub fn span(table: &[i32], sections: Sections, at: usize) -> usize
    ensures { (result ≡ span_of (statement_at table.now sections at)) × (1 ≤ result) × (result < 2 ^ 33) }
{
    let got = read_statement(table, sections, at);
    let Some(statement) = got else {
        return 1;
    };
    match statement {
        Statement::Plain(_) | Statement::Call(_) => 1,
        Statement::If {
            then_count,
            else_count,
            ..
        } => 1 + then_count + else_count,
        Statement::While { count, .. } => 1 + count,
        Statement::Bundle { count } => 1 + count,
    }
}

// The first number at or past `to`, from `from` on, from statement to statement.
// No `for`: `at` goes on behind a statement's blocks, and `left` bounds the turns of the law.
pub fn land(table: &[i32], sections: Sections, from: usize, to: usize) -> usize
    requires { to ≤ 1024 }
    ensures { result ≡ landing to table.now sections from to }
{
    let mut at = from;
    let mut left = to;
    while left > 0 {
        if at >= to {
            return at;
        }
        left -= 1;
        at += span(table, sections, at);
    }
    at
}

// The sections once `removed` statements have made room for `added` others.
pub fn edited_sections(sections: Sections, removed: usize, added: usize) -> Sections
    requires { (removed ≤ sections.statements) × (sections.statements - removed + added ≤ 1024) }
    ensures { result ≡ edited_sections sections removed added }
{
    Sections {
        start: sections.start,
        objects: sections.objects,
        variables: sections.variables,
        statements: sections.statements - removed + added,
        rows: sections.rows,
    }
}

// The word `i` of the table once the `removed` statements from `at` on have made room for the `added` statements of the text.
fn edited_word(
    table: &[i32],
    sections: Sections,
    at: usize,
    removed: usize,
    added: usize,
    text: &[i32],
    i: usize,
) -> i32
    requires { Fits sections at removed added × (i < 7704) }
    ensures { result ≡ edited_word table.now sections at removed added text.now i }
{
    let statements = sections.statements - removed + added;
    if i == 5 {
        return number_word(7 * statements);
    }
    let first = sections.start + sections.objects + 8 * sections.variables;
    if (i == 6) & (sections.start == 8) {
        return number_word(first + 7 * statements);
    }
    let start = first + 7 * at;
    if i < start {
        return signed_word(table, i);
    }
    if i < first + 7 * (at + added) {
        return signed_word(text, i - start);
    }
    signed_word(table, i + 7 * removed - 7 * added)
}

// The words `first` to `end` - 1 of the edited table, at their places in `out`.
fn fill_edited(
    table: &[i32],
    sections: Sections,
    at: usize,
    removed: usize,
    added: usize,
    text: &[i32],
    first: usize,
    end: usize,
    out: &mut [i32],
)
    requires { Fits sections at removed added × (first ≤ end) × (end ≤ 7704) × (end ≤ length out.old) }
    ensures { Overwritten (pos 0) out.old first (end - first)
        (λ i. edited_word table.now sections at removed added text.now (first + i)) out.new }
{
    for i in first..end {
        out[i] = edited_word(table, sections, at, removed, added, text, i);
    }
}

// Causes 5 and 6 of a text of `size` words that stands alone as a table.
fn judge_text(table: &[i32], sections: Sections, size: usize) -> Result<(), TextFault>
    requires { sections.statements ≤ 1024 }
    ensures { result ≡ text_of table.now sections size }
{
    let count = sections.statements;
    if lowest_statement(table, sections) < count {
        return Err(TextFault::Record);
    }
    if size != 7 * count {
        return Err(TextFault::Layout);
    }
    let layout = read_layout(table, sections);
    let Ok(()) = layout else {
        return Err(TextFault::Layout);
    };
    if count == 0 {
        return Err(TextFault::Layout);
    }
    if span(table, sections, 0) != count {
        return Err(TextFault::Layout);
    }
    Ok(())
}

// Causes 5 and 6 of a text.
pub fn check_text(table: &[i32], sections: Sections, text: &[i32]) -> Result<(), TextFault>
    requires { Fits sections 0 sections.statements (length text.now / 7) }
    ensures { result ≡ text_of (text_table table.now sections text.now) (text_sections sections text.now)
        (length text.now) }
{
    let size = text.len();
    let count = size / 7;
    let statements = sections.statements;
    let alone = edited_sections(sections, statements, count);
    let end = sections.start
        + sections.objects
        + 8 * sections.variables
        + 7 * count
        + 6 * sections.rows;
    let mut words = [0i32; 7704];
    fill_edited(
        table, sections, 0, statements, count, text, 0, end, &mut words,
    );
    judge_text(&words[..end], alone, size)
}

// The words `first` to `end` - 1 are those that stood `by` words before, from the last one on, so that none is lost.
// A loop: the library has no `copy_within`.
fn shift_up(words: &mut [i32], first: usize, end: usize, by: usize)
    requires { (first ≤ end) × (end ≤ length words.old) × (by ≤ first) }
    ensures { Overwritten (pos 0) words.old first (end - first) (λ i. get_or words.old (first + i - by) (pos 0)) words.new }
{
    for i in (first..end).rev() {
        words[i] = words[i - by];
    }
}

// The words `first` to `end` - 1 are those that stood `by` words behind, from the first one on.
fn shift_down(words: &mut [i32], first: usize, end: usize, by: usize)
    requires { (first ≤ end) × (end + by ≤ length words.old) }
    ensures { Overwritten (pos 0) words.old first (end - first) (λ i. get_or words.old (first + i + by) (pos 0)) words.new }
{
    for i in first..end {
        words[i] = words[i + by];
    }
}

// The words behind the text, where `removed` statements make room for `added` others.
fn move_behind(words: &mut [i32], first: usize, end: usize, removed: usize, added: usize)
    requires { (first ≤ end) × (end ≤ length words.old) × (end + 7 * removed - 7 * added ≤ length words.old) × (7 * added ≤ first) × (removed ≤ 1024)
        × (added ≤ 1024) }
    ensures { Overwritten (pos 0) words.old first (end - first)
        (λ i. get_or words.old (first + i + 7 * removed - 7 * added) (pos 0)) words.new }
{
    if added > removed {
        shift_up(words, first, end, 7 * (added - removed));
    } else {
        shift_down(words, first, end, 7 * (removed - added));
    }
}

// The first `count` words of the text, from `first` on.
fn put_text(words: &mut [i32], first: usize, count: usize, text: &[i32])
    requires { first + count ≤ length words.old }
    ensures { Overwritten (pos 0) words.old first count (λ i. get_or text.now i (pos 0)) words.new }
{
    for i in 0..count {
        words[first + i] = signed_word(text, i);
    }
}

// Writes the edited table over the table in the buffer, in place: a copy of it would be 30 KB of the stack. The words behind it stay.
pub fn write_edited(
    buffer: &mut [i32],
    sections: Sections,
    at: usize,
    removed: usize,
    added: usize,
    text: &[i32],
)
    requires { Fits sections at removed added × (table_end sections ≤ length buffer.old)
        × (table_end (edited_sections sections removed added) ≤ length buffer.old) }
    ensures { buffer.new ≡ edited buffer.old sections at removed added text.now
        ++ drop (table_end (edited_sections sections removed added)) buffer.old }
{
    let five = edited_word(buffer, sections, at, removed, added, text, 5);
    let six = edited_word(buffer, sections, at, removed, added, text, 6);
    let first = sections.start + sections.objects + 8 * sections.variables + 7 * at;
    let statements = sections.statements - removed + added;
    let end = sections.start
        + sections.objects
        + 8 * sections.variables
        + 7 * statements
        + 6 * sections.rows;
    move_behind(buffer, first + 7 * added, end, removed, added);
    put_text(buffer, first, 7 * added, text);
    buffer[5] = five;
    buffer[6] = six;
}
