// The run of a set of routines: the interpreter of one routine, which calls itself on a callee.
#![tactic(auto)]

mod calls; // calls.rt: what a call hands over, and what the caller gets
mod lent; // lent.rt: where a run reads each routine
mod levels; // levels.rt: a level of the interpreter, for one routine
mod prepare; // prepare.rt: what a run begins with

ghost use Rattle.std.specs.Prelude.{◌≤◌, ◌≡◌, length};
ghost use Rattle.rules.specs.Sets.{AllAccepted};
ghost use Rattle.sets.specs.Checked.{member_words};
ghost use Rattle.sets.specs.Tables.{tables_in};
ghost use Rattle.set_runs.specs.SetRuns.{leaves, outcome_of, RunsAccepted, room_enough, SetRunAnswered};

use answers::stops::Outcome;
use levels::run_routine;
use prepare::{enter_last, lay_flows};
use rules::SetRefusal;
use sets::check_set;

// How a run of a set ends, and in which routine.
#[derive(Clone, Copy)]
pub struct SetOutcome {
    pub outcome: Outcome,
    pub routine: usize,
}

// How a level of the interpreter ends: its routine's table has ended with so many steps made, and the caller goes on; or the run has ended.
#[derive(Clone, Copy)]
pub enum Level {
    Returns(u32),
    Halts(SetOutcome),
}

// How the run has ended when the level of the last routine has.
fn outcome_of(last: usize, level: Level) -> SetOutcome
    ensures { result ≡ outcome_of last level }
{
    match level {
        Level::Returns(steps) => SetOutcome {
            outcome: Outcome::Done { steps },
            routine: last,
        },
        Level::Halts(outcome) => outcome,
    }
}

// The run of a set that is accepted, from the last routine: causes 10 to 12 and 16 come first.
fn run_accepted(
    tables: &[i32],
    lengths: &[u32],
    directory: &[u32],
    cells: &mut [u32],
    values: &mut [u32],
    origins: &[u32],
    limit: u32,
    member: &mut [i32],
    ends: &mut [u64],
    successors: &mut [u32],
) -> SetOutcome
    requires { AllAccepted (tables_in tables.now lengths.now) × (member_words ≤ length member.old) × (length ends.old ≡ 4096)
        × (length successors.old ≡ 16384) }
    ensures { RunsAccepted (tables_in tables.now lengths.now) (record {
      directory = directory.entry.now;
      cells = cells.old;
      values = values.old;
      origins = origins.now;
    }) limit (leaves result values.new cells.new) }
{
    let entry = enter_last(tables, lengths, member, directory, cells, values, origins);
    let last = lengths.len() - 1;
    match entry {
        Err(refusal) => SetOutcome {
            outcome: Outcome::Refused(refusal),
            routine: last,
        },
        Ok(()) => {
            lay_flows(tables, lengths, member, successors);
            let level = run_routine(
                tables, lengths, last, 0, ends, successors, directory, values, cells, limit,
            );
            outcome_of(last, level)
        }
    }
}

// Checks the set whose tables stand in `tables`, one after the other (`lengths` are their lengths in words), and what is lent, then runs it from its last
// routine, `limit` steps at most. Cells, and the values of the last routine, are changed in place; a refusal changes nothing. `member`, `ends` and
// `successors` are room that the run uses, 7,720, 4,096 and 16,384 elements.
pub fn run_set(
    tables: &[i32],
    lengths: &[u32],
    directory: &[u32],
    cells: &mut [u32],
    values: &mut [u32],
    origins: &[u32],
    limit: u32,
    member: &mut [i32],
    ends: &mut [u64],
    successors: &mut [u32],
) -> Option<SetOutcome>
    ensures { SetRunAnswered (room_enough (length member.old) (length ends.old) (length successors.old))
        (tables_in tables.now lengths.now) (record {
          directory = directory.entry.now;
          cells = cells.old;
          values = values.old;
          origins = origins.now;
        })
        limit result values.new cells.new }
{
    if ends.len() < 4096 {
        return None;
    }
    if successors.len() < 16384 {
        return None;
    }
    let checked = check_set(tables, lengths, member);
    let Some(verdict) = checked else {
        return None;
    };
    match verdict {
        Err(SetRefusal { routine, refusal }) => Some(SetOutcome {
            outcome: Outcome::Refused(refusal),
            routine,
        }),
        Ok(()) => Some(run_accepted(
            tables,
            lengths,
            directory,
            cells,
            values,
            origins,
            limit,
            member,
            &mut ends[..4096],
            &mut successors[..16384],
        )),
    }
}
