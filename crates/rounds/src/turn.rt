// One turn of a routine: it goes on in its own parts, or is skipped.
ghost use Rattle.std.specs.Prelude.{◌≡◌};
ghost use Rattle.answers.specs.Answers.{reads};
ghost use Rattle.rounds.specs.Rounds.{steps_of};
ghost use Rattle.rounds.specs.Standing.{InPlace, MayGoOn, MayTurn, GoneOn, Turned};

use answers::stops::Outcome;
use interpreter::runs::resume;
use seats::Seat;

// The steps that an outcome tells.
pub(crate) fn steps_of(outcome: Outcome) -> u32
    ensures { result ≡ steps_of (reads outcome) }
{
    match outcome {
        Outcome::Refused(_) => 0,
        Outcome::Done { steps } | Outcome::Spent { steps, .. } | Outcome::Stopped { steps, .. } => {
            steps
        }
    }
}

// The routine in this seat goes on from the statement at which it was left, `allowance` steps at most.
fn go_on(
    tables: &[i32],
    directories: &[u32],
    cells: &mut [u32],
    values: &mut [u32],
    ends: &mut [u64],
    successors: &[u32],
    seat: Seat,
    r: usize,
    steps: u32,
    statement: usize,
    allowance: u32,
) -> Outcome
    requires in_place { InPlace tables.now directories.now successors.now seat r ends.old values.old }
    requires may_go_on { MayGoOn tables.now directories.now successors.now seat r allowance steps statement ends.old values.old cells.old }
    ensures { GoneOn tables.now directories.now successors.now seat r allowance steps statement
        ends.old values.old cells.old result ends.new values.new cells.new }
{
    let table = seat.places.table;
    let directory = seat.places.directory;
    let own = seat.places.values;
    let ends_start = 512 * r;
    let ends_end = ends_start + 512;
    let flow_start = 2048 * r;
    let flow_end = flow_start + 2048;
    resume(
        &tables[table.start..table.end],
        seat.sections,
        &mut ends[ends_start..ends_end],
        &directories[directory.start..directory.end],
        &successors[flow_start..flow_end],
        statement,
        steps,
        &mut values[own.start..own.end],
        cells,
        steps + allowance,
    )
}

// A turn of routine r: one that waits goes on, one that ended is skipped.
pub(crate) fn take_turn(
    tables: &[i32],
    directories: &[u32],
    cells: &mut [u32],
    values: &mut [u32],
    ends: &mut [u64],
    successors: &[u32],
    seat: Seat,
    r: usize,
    allowance: u32,
) -> Outcome
    requires in_place { InPlace tables.now directories.now successors.now seat r ends.old values.old }
    requires may_turn { MayTurn tables.now directories.now successors.now seat r allowance seat.outcome ends.old values.old cells.old }
    ensures { Turned tables.now directories.now successors.now seat r allowance seat.outcome
        ends.old values.old cells.old result ends.new values.new cells.new }
{
    let outcome = seat.outcome;
    match outcome {
        Outcome::Spent { steps, statement } => {
            go_on(
                tables,
                directories,
                cells,
                values,
                ends,
                successors,
                seat,
                r,
                steps,
                statement,
                allowance,
            )
        }
        Outcome::Done { .. } | Outcome::Stopped { .. } | Outcome::Refused(_) => outcome,
    }
}
