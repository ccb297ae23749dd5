// The flow of a routine table: what is due after each statement, written once for a whole table.
ghost use Rattle.std.specs.Prelude.{◌≡◌, ◌+◌, ◌*◌, ◌^◌, ◌<◌, ◌≤◌, length};
ghost use Rattle.blocks.specs.Tree.{simples, parse};
ghost use Rattle.blocks.specs.Flow.{successors, lead, line, flow};
ghost use Rattle.blocks.specs.Written.{FirstDue, put, written, Written};

use statements::{Statement, read_statement};
use words::sections::Sections;

// What is due where the block of `first` to `end` - 1 begins, with `left` statements left; `after` where it is empty.
fn first_due(first: usize, end: usize, left: usize, after: usize) -> usize
    ensures { FirstDue left first end after result }
{
    if left == 0 {
        return after;
    }
    if first < end { first } else { after }
}

// The same of `count` statements of a bundle that start at `first`.
fn first_simple(first: usize, count: usize, after: usize) -> usize
    ensures { result ≡ lead first count after }
{
    if count > 0 { first } else { after }
}

// How many of the `count` statements from `first` on are of kinds 1 to 10 and 14, before one that is not.
fn count_simple(table: &[i32], sections: Sections, first: usize, count: usize) -> usize
    requires { first + count < 2 ^ 64 }
    ensures { result ≡ length (simples count table.now sections first) }
{
    for at in first..first + count {
        let got = read_statement(table, sections, at);
        let Some(s) = got else {
            return at - first;
        };
        let Statement::Plain(_) = s else {
            return at - first;
        };
    }
    count
}

// The two entries of statement `at`. A number that an entry of 32 bits does not hold is no statement's.
fn put_successors(entries: &mut [u32], at: usize, next: usize, other: usize)
    requires { 2 * at + 1 < length entries.old }
    ensures { entries.new ≡ put entries.old (successors at next other) }
{
    entries[2 * at] = (next % 4294967296) as u32;
    entries[2 * at + 1] = (other % 4294967296) as u32;
}

// The `count` statements of a bundle that start at `first`.
fn link_bundle(first: usize, count: usize, after: usize, entries: &mut [u32])
    requires { 2 * (first + count) ≤ length entries.old }
    ensures { entries.new ≡ written (line first count after) entries.old }
{
    let end = first + count;
    for at in first..end {
        let inner = at + 1;
        let next = first_simple(inner, end - inner, after);
        put_successors(entries, at, next, next);
    }
}

// The block of `first` to `end` - 1, where `after` is due when it ends. `allowed` is at least the number of its statements; it falls at each.
// No `for`: `at` goes on behind a statement's blocks.
fn link_block(
    table: &[i32],
    sections: Sections,
    first: usize,
    end: usize,
    after: usize,
    allowed: usize,
    entries: &mut [u32],
)
    requires { 2 * sections.statements ≤ length entries.old }
    ensures { entries.new ≡ written (flow (parse allowed table.now sections first end) after) entries.old }
{
    let mut at = first;
    let mut left = allowed;
    while left > 0 {
        if at >= end {
            return;
        }
        left -= 1;
        let got = read_statement(table, sections, at);
        let Some(s) = got else {
            return;
        };
        let inner = at + 1;
        match s {
            Statement::Plain(_) => {
                let next = first_due(inner, end, left, after);
                put_successors(entries, at, next, next);
                at = inner;
            }
            Statement::If {
                condition: _,
                then_count,
                else_count,
            } => {
                let middle = inner + then_count;
                let rest = middle + else_count;
                let after_if = first_due(rest, end, left, after);
                let next = first_due(inner, middle, left, after_if);
                let other = first_due(middle, rest, left, after_if);
                put_successors(entries, at, next, other);
                link_block(table, sections, inner, middle, after_if, left, entries);
                link_block(table, sections, middle, rest, after_if, left, entries);
                at = rest;
            }
            Statement::While {
                condition: _,
                count,
            } => {
                let rest = inner + count;
                let next = first_due(inner, rest, left, at);
                let other = first_due(rest, end, left, after);
                put_successors(entries, at, next, other);
                link_block(table, sections, inner, rest, at, left, entries);
                at = rest;
            }
            Statement::Bundle { count } => {
                let rest = inner + count;
                let after_bundle = first_due(rest, end, left, after);
                let held = count_simple(table, sections, inner, count);
                let next = first_simple(inner, held, after_bundle);
                put_successors(entries, at, next, next);
                link_bundle(inner, held, after_bundle, entries);
                at = rest;
            }
            Statement::Call(_) => {
                let next = first_due(inner, end, left, after);
                put_successors(entries, at, next, next);
                at = inner;
            }
        }
    }
}

// The successors of each statement: entry 2 * s is the next of statement s, entry 2 * s + 1 its other.
// False, and nothing written, where there are fewer than two entries a statement.
pub fn write_successors(table: &[i32], sections: Sections, entries: &mut [u32]) -> bool
    ensures { Written table.now sections entries.old result entries.new }
{
    let end = sections.statements;
    if end > entries.len() / 2 {
        return false;
    }
    link_block(table, sections, 0, end, end, end, entries);
    true
}
