// One step of a run: what it leaves, and the statement due after it.
#![tactic(auto)]

mod numbers; // numbers.rt: sums and products
mod simple; // simple.rt: the step of kinds 1 to 10 and 14

ghost use Rattle.std.specs.Prelude.{cond, ◌≡◌, ◌<◌, length, get_or};
ghost use Rattle.machine.specs.Machine.{condition_holds};
ghost use Rattle.checks.specs.Checked.{Comparable};
ghost use Rattle.steps.specs.Bare.{Prepared, Ready, bare_move, Moves};

use checks::{Step, condition_holds};
use conditions::Condition;
use simple::advance_simple;
use statements::Statement;
use statements::decode::decode_statement;
use words::sections::Sections;

// The mark of a statement of one successor that passes its checks, in the place of the second.
pub const MARK: u32 = 4294967295;

// An entry of the slice of successors.
fn successor(successors: &[u32], i: usize) -> usize
    requires { i < length successors.now }
    ensures { result ≡ get_or successors.now i 0 }
{
    successors[i] as usize
}

// An if or a while: `next` where its condition holds, else `other`.
fn branch(values: &[u32], c: Condition, next: usize, other: usize) -> usize
    requires { Comparable c values.now }
    ensures { result ≡ cond (condition_holds values.now c) next other }
{
    if condition_holds(values, c) {
        return next;
    }
    other
}

// The step of the statement `at`.
pub fn advance(
    table: &[i32],
    sections: Sections,
    ends: &mut [u64],
    directory: &[u32],
    successors: &[u32],
    at: usize,
    values: &mut [u32],
    cells: &mut [u32],
) -> Step
    requires prepared { Prepared table.now sections ends.old directory.now successors.now values.old }
    requires ready { Ready table.now sections ends.old successors.now at values.old cells.old }
    ensures { Moves (bare_move table.now sections ends.old directory.now successors.now
        at values.old cells.old) result ends.new values.new cells.new }
{
    let next = successor(successors, 2 * at);
    let s = decode_statement(table, sections, at);
    match s {
        Statement::Plain(p) => advance_simple(
            ends, directory, successors, at, next, p, values, cells,
        ),
        Statement::If { condition, .. } => {
            let other = successor(successors, 2 * at + 1);
            Step::Go(branch(values, condition, next, other))
        }
        Statement::While { condition, .. } => {
            let other = successor(successors, 2 * at + 1);
            Step::Go(branch(values, condition, next, other))
        }
        Statement::Bundle { .. } => Step::Go(next),
        Statement::Call(_) => Step::Call,
    }
}
