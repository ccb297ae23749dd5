// A level of the interpreter of a set: one routine, from its first statement on.
ghost use Rattle.std.specs.Prelude.{◌≡◌};
ghost use Rattle.set_runs.specs.Lent.{halts, pause_of};
ghost use Rattle.set_runs.specs.Levels.{MayRun, RanOn, MayCall, LevelLeaves};

use crate::calls::{called_values, due_after, give_result};
use crate::lent::{call_at, lay_routine, part_of, variables_of};
use crate::{Level, SetOutcome};
use answers::stops::Outcome;
use interpreter::runs::resume;

// Why a stretch of a routine's own steps ends: the level ends, or a call is due.
#[derive(Clone, Copy)]
pub(crate) enum Pause {
    Leaves(Level),
    Calls { steps: u32, statement: usize },
}

fn halts(outcome: Outcome, n: usize) -> Pause
    ensures { result ≡ halts outcome n }
{
    Pause::Leaves(Level::Halts(SetOutcome {
        outcome,
        routine: n,
    }))
}

// What the outcome of a stretch of routine n means: one that is spent before the limit stands at a call.
fn pause_of(limit: u32, n: usize, outcome: Outcome) -> Pause
    ensures { result ≡ pause_of limit n outcome }
{
    match outcome {
        Outcome::Done { steps } => Pause::Leaves(Level::Returns(steps)),
        Outcome::Spent { steps, statement } => {
            if steps < limit {
                return Pause::Calls { steps, statement };
            }
            halts(outcome, n)
        }
        Outcome::Stopped { .. } | Outcome::Refused(_) => halts(outcome, n),
    }
}

// A stretch of routine n's own steps, from the statement `at` with `made` steps made.
fn stretch(
    tables: &[i32],
    lengths: &[u32],
    n: usize,
    at: usize,
    made: u32,
    ends: &mut [u64],
    successors: &[u32],
    directory: &[u32],
    values: &mut [u32],
    cells: &mut [u32],
    limit: u32,
) -> Outcome
    requires { MayRun tables.now lengths.now directory.now successors.now n limit at made ends.old values.old cells.old }
    ensures { RanOn tables.now lengths.now directory.now successors.now n limit at made
        ends.old values.old cells.old result ends.new values.new cells.new }
{
    let part = part_of(tables, lengths, n);
    let room_start = 512 * n;
    let room_end = room_start + 512;
    let flow_start = 2048 * n;
    let flow_end = flow_start + 2048;
    resume(
        &tables[part.start..part.end],
        part.sections,
        &mut ends[room_start..room_end],
        directory,
        &successors[flow_start..flow_end],
        at,
        made,
        values,
        cells,
        limit,
    )
}

// Routine n, which is called with `made` steps made, from its first statement on: its own steps, and at a call its callee, whose number is below its own.
// `values` are its variables. Its part of `ends` stands behind those of all that it may call.
pub(crate) fn run_routine(
    tables: &[i32],
    lengths: &[u32],
    n: usize,
    made: u32,
    ends: &mut [u64],
    successors: &[u32],
    directory: &[u32],
    values: &mut [u32],
    cells: &mut [u32],
    limit: u32,
) -> Level
    requires { MayCall tables.now lengths.now directory.now successors.now n limit made ends.old values.old cells.old }
    ensures { LevelLeaves tables.now lengths.now directory.now successors.now n limit made
        values.old cells.old result values.new cells.new }
{
    lay_routine(tables, lengths, n, ends);
    let below = 512 * n;
    let mut at = 0;
    let mut steps = made;
    loop {
        let outcome = stretch(
            tables, lengths, n, at, steps, ends, successors, directory, values, cells, limit,
        );
        let pause = pause_of(limit, n, outcome);
        match pause {
            Pause::Leaves(level) => {
                return level;
            }
            Pause::Calls {
                steps: before,
                statement,
            } => {
                let site = call_at(tables, lengths, n, statement);
                let callee = site.callee as usize;
                let result = site.result;
                let count = variables_of(tables, lengths, callee);
                let mut called = called_values(values, site);
                let level = run_routine(
                    tables,
                    lengths,
                    callee,
                    before + 1,
                    &mut ends[..below],
                    successors,
                    directory,
                    &mut called[..count],
                    cells,
                    limit,
                );
                match level {
                    Level::Halts(_) => {
                        return level;
                    }
                    Level::Returns(after) => {
                        give_result(values, result, called, count);
                        at = due_after(successors, n, statement);
                        steps = after;
                    }
                }
            }
        }
    }
}
