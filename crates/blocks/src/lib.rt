// The blocks of a routine table: the tree that they are, and their layout (cause 6).
#![tactic(auto)]

pub mod flow; // flow.rt: the flow of a routine table: what is due after each statement, written once for a whole table

ghost use Rattle.std.specs.Prelude.{◌≡◌, ◌+◌, ◌^◌, ◌<◌};
ghost use Rattle.blocks.specs.Layout.{contents, bundle_layout, block_layout, layout};
ghost use Rattle.blocks.specs.Parts.{verdict, blocks_of, Parted};

use answers::refusals::Refusal;
use statements::{Statement, read_statement};
use words::sections::Sections;

// Blocks hold blocks to this depth; top statements have depth 0.
const MAX_DEPTH: usize = 6;

// A bundle has 1 to this many statements.
const MAX_BUNDLE: usize = 16;

// What a statement of a block leads to: the next statement, or two blocks and the statement behind them.
#[derive(Clone, Copy)]
enum Parts {
    Next(usize),
    Blocks { middle: usize, rest: usize },
}

// The contents of a bundle: `count` statements from `first` on, its head at `head`.
fn lay_contents(
    table: &[i32],
    sections: Sections,
    head: usize,
    first: usize,
    count: usize,
) -> Result<(), Refusal>
    requires { first + count < 2 ^ 64 }
    ensures { result ≡ verdict (contents count table.now sections head first) }
{
    for at in first..first + count {
        let got = read_statement(table, sections, at);
        let Some(s) = got else {
            return Err(Refusal::StatementRecord(at));
        };
        let Statement::Plain(_) = s else {
            return Err(Refusal::BlockLayout(head));
        };
    }
    Ok(())
}

// A bundle with its head at `head`, in a block that ends at `end`.
fn lay_bundle(
    table: &[i32],
    sections: Sections,
    head: usize,
    count: usize,
    end: usize,
) -> Result<(), Refusal>
    requires { head < end }
    ensures { result ≡ verdict (bundle_layout table.now sections head count end) }
{
    if count == 0 {
        return Err(Refusal::BlockLayout(head));
    }
    if count > MAX_BUNDLE {
        return Err(Refusal::BlockLayout(head));
    }
    let first = head + 1;
    if count > end - first {
        return Err(Refusal::BlockLayout(head));
    }
    lay_contents(table, sections, head, first, count)
}

// Two blocks behind the head at `head`, of these counts, in a block that ends at `end`.
fn split(head: usize, then: usize, other: usize, end: usize) -> Result<Parts, Refusal>
    requires { head < end }
    ensures { result ≡ blocks_of head then other end }
{
    let inner = head + 1;
    if then > end - inner {
        return Err(Refusal::BlockLayout(head));
    }
    let middle = inner + then;
    if other > end - middle {
        return Err(Refusal::BlockLayout(head));
    }
    let rest = middle + other;
    Ok(Parts::Blocks { middle, rest })
}

// The parts of the statement at `at`, in a block of the depth `depth` that ends at `end`. The body of a loop is a block beside an empty one.
fn read_parts(
    table: &[i32],
    sections: Sections,
    depth: usize,
    at: usize,
    end: usize,
) -> Result<Parts, Refusal>
    requires { at < end }
    ensures { Parted table.now sections depth at end result }
{
    let Some(s) = read_statement(table, sections, at) else {
        return Err(Refusal::StatementRecord(at));
    };
    if depth > MAX_DEPTH {
        return Err(Refusal::BlockLayout(at));
    }
    match s {
        Statement::Plain(_) => Ok(Parts::Next(at + 1)),
        Statement::If {
            then_count,
            else_count,
            ..
        } => split(at, then_count, else_count, end),
        Statement::While { count, .. } => split(at, count, 0, end),
        Statement::Bundle { count } => {
            lay_bundle(table, sections, at, count, end)?;
            Ok(Parts::Next(at + 1 + count))
        }
        Statement::Call(_) => Ok(Parts::Next(at + 1)),
    }
}

// The block of `first` to `end` - 1, at the depth `depth`. `allowed` is at least the number of its statements; it falls at each.
// No `for`: `at` goes on behind a statement's blocks.
pub fn lay_block(
    table: &[i32],
    sections: Sections,
    depth: usize,
    first: usize,
    end: usize,
    allowed: usize,
) -> Result<(), Refusal>
    ensures { result ≡ verdict (block_layout allowed table.now sections depth first end) }
{
    let mut at = first;
    let mut left = allowed;
    while left > 0 {
        if at >= end {
            break;
        }
        left -= 1;
        match read_parts(table, sections, depth, at, end)? {
            Parts::Next(next) => {
                at = next;
            }
            Parts::Blocks { middle, rest } => {
                lay_block(table, sections, depth + 1, at + 1, middle, left)?;
                lay_block(table, sections, depth + 1, middle, rest, left)?;
                at = rest;
            }
        }
    }
    Ok(())
}

// Cause 6: the lowest statement whose block, count, contents or depth is wrong.
pub fn read_layout(table: &[i32], sections: Sections) -> Result<(), Refusal>
    ensures { result ≡ verdict (layout table.now sections) }
{
    let statements = sections.statements;
    lay_block(table, sections, 0, 0, statements, statements)
}
