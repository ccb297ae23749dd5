// The list of loop facts that is lent beside a routine (document 02, point 9), four words an entry: its entries, and cause 17 by form.
#![tactic(auto)]

ghost use Rattle.std.specs.Prelude.{◌≡◌, ◌^◌, ◌<◌, ◌≤◌, length};
ghost use Rattle.conditions.specs.Conditions.{same_kind};
ghost use Rattle.listed.specs.Entries.{entry_count, entry_at, belongs};
ghost use Rattle.listed.specs.ListForm.{names_while, names_variable, sides_right, in_order, entry_right, lowest_entry, list_faults, list_form};

use answers::refusals::Refusal;
use arrays::lowest;
use conditions::condition_right;
use statements::{Statement, read_statement};
use sums::BIAS;
use words::field::{index_of, is_constant, plain};
use words::sections::{Sections, names_integer, names_pointer};
use words::{Fields, word};

// An entry: its number in the list, and left <= right + offset, with the bias in the offset; 16 stands for zero.
#[derive(Clone, Copy, Debug, PartialEq, Eq)]
pub struct Entry {
    pub number: usize,
    pub left: usize,
    pub right: usize,
    pub offset: u64,
}

// How many entries a list of at most 1,024 words has.
pub fn entry_count(listed: &[i32]) -> usize
    requires { length listed.now ≤ 1024 }
    ensures { result ≡ entry_count listed.now }
{
    (listed.len() + 3) / 4
}

pub fn entry_at(listed: &[i32], e: usize) -> Entry
    requires { e < 2 ^ 40 }
    ensures { result ≡ entry_at listed.now e }
{
    Entry {
        number: e,
        left: index_of(word(listed, 4 * e + 1)),
        right: index_of(word(listed, 4 * e + 2)),
        offset: word(listed, 4 * e + 3),
    }
}

// The entry belongs to the while statement `at`.
pub fn belongs(listed: &[i32], at: usize, e: usize) -> bool
    requires { (e < 2 ^ 40) × (at < 2 ^ 40) }
    ensures { result ≡ belongs listed.now at e }
{
    word(listed, 4 * e) == BIAS + (at as u64)
}

fn names_while(table: &[i32], sections: Sections, w: u64) -> bool
    ensures { result ≡ names_while table.now sections w }
{
    let read = read_statement(table, sections, plain(w));
    let Some(statement) = read else {
        return false;
    };
    match statement {
        Statement::While { .. } => BIAS <= w,
        Statement::Plain(_)
        | Statement::If { .. }
        | Statement::Bundle { .. }
        | Statement::Call(_) => false,
    }
}

fn names_variable(table: &[i32], sections: Sections, w: u64) -> bool
    ensures { result ≡ names_variable table.now sections w }
{
    names_integer(table, sections, w) | names_pointer(table, sections, w)
}

// Two variables of one kind: the condition x < y is right.
fn same_kind(table: &[i32], sections: Sections, x: u64, y: u64) -> bool
    ensures { result ≡ same_kind table.now sections x y }
{
    let less = Fields {
        kind: BIAS,
        first: x,
        second: BIAS,
        third: BIAS,
        fourth: y,
        fifth: BIAS,
        sixth: BIAS,
    };
    condition_right(table, sections, less)
}

// Two variables of one kind, or one and -1.
fn sides_right(table: &[i32], sections: Sections, x: u64, y: u64) -> bool
    ensures { result ≡ sides_right table.now sections x y }
{
    same_kind(table, sections, x, y)
        | ((x == BIAS - 1) & names_variable(table, sections, y))
        | ((y == BIAS - 1) & names_variable(table, sections, x))
}

// Its statement is not below that of the entry before.
fn in_order(listed: &[i32], e: usize) -> bool
    requires { e < 2 ^ 40 }
    ensures { result ≡ in_order listed.now e }
{
    if e == 0 {
        return true;
    }
    word(listed, 4 * (e - 1)) <= word(listed, 4 * e)
}

fn entry_right(table: &[i32], sections: Sections, listed: &[i32], e: usize) -> bool
    requires { e < 2 ^ 40 }
    ensures { result ≡ entry_right table.now sections listed.now e }
{
    sides_right(
        table,
        sections,
        word(listed, 4 * e + 1),
        word(listed, 4 * e + 2),
    ) & is_constant(word(listed, 4 * e + 3))
        & names_while(table, sections, word(listed, 4 * e))
        & in_order(listed, e)
        & (4 * e + 4 <= listed.len())
}

// The first entry that is not right, else their number.
fn lowest_entry(table: &[i32], sections: Sections, listed: &[i32]) -> usize
    requires { length listed.now ≤ 1024 }
    ensures { result ≡ lowest_entry table.now sections listed.now }
{
    lowest(
        entry_count(listed),
        |e| !entry_right(table, sections, listed, e),
    )
}

// Cause 17 by form, over the whole list.
pub fn check_list(table: &[i32], sections: Sections, listed: &[i32]) -> Result<(), Refusal>
    ensures { result ≡ list_form (list_faults table.now sections listed.now) }
{
    if listed.len() > 1024 {
        return Err(Refusal::LoopFact(256));
    }
    let entry = lowest_entry(table, sections, listed);
    if entry < entry_count(listed) {
        return Err(Refusal::LoopFact(entry));
    }
    Ok(())
}
