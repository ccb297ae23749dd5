// Before the turns: each routine is checked as its run alone checks it, and what its run needs is laid out.
#![tactic(auto)]

ghost use Rattle.std.specs.Prelude.{◌≡◌, ◌<◌, length};
ghost use Rattle.machine.specs.Machine.{going};
ghost use Rattle.interpreter.specs.Outcomes.{outcome_shown};
ghost use Rattle.seats.specs.SeatAt.{nobody};
ghost use Rattle.seats.specs.Seats.{SeatResult, AllSeatedAs, CountIs};

use answers::refusals::Refusal;
use answers::stops::Outcome;
use interpreter::starts::prepare;
use parts::{Span, span_of};
use rules::SetRefusal;
use words::sections::Sections;

// Where a routine's parts lie.
#[derive(Clone, Copy)]
pub struct Places {
    pub table: Span,
    pub directory: Span,
    pub values: Span,
}

// A routine that is served: the sections of its table, its parts, and where it stands: what a run by itself with the steps that it has received answers.
#[derive(Clone, Copy)]
pub struct Seat {
    pub sections: Sections,
    pub places: Places,
    pub outcome: Outcome,
}

// What becomes of all, with the seats.
#[derive(Clone, Copy)]
pub struct Prepared {
    pub seated: Result<(), SetRefusal>,
    pub seats: [Seat; 8],
}

// Where a run stands before its first step: done where nothing is due.
fn first_outcome(sections: Sections) -> Outcome
    ensures { result ≡ outcome_shown sections going 0 0 }
{
    if 0 < sections.statements {
        return Outcome::Spent {
            steps: 0,
            statement: 0,
        };
    }
    Outcome::Done { steps: 0 }
}

// A seat that nobody has.
pub fn no_seat() -> Seat
    ensures { result ≡ nobody }
{
    let sections = Sections {
        start: 0,
        objects: 0,
        variables: 0,
        statements: 0,
        rows: 0,
    };
    let span = Span { start: 0, end: 0 };
    let places = Places {
        table: span,
        directory: span,
        values: span,
    };
    let outcome = Outcome::Refused(Refusal::Length);
    Seat {
        sections: sections,
        places: places,
        outcome: outcome,
    }
}

// Routine r is checked, and its ends and successors are laid out in its part of the scratch.
fn seat_routine(
    tables: &[i32],
    listed: &[i32],
    directories: &[u32],
    cells: &[u32],
    values: &[u32],
    origins: &[u32],
    lengths: &[u32],
    ends: &mut [u64],
    successors: &mut [u32],
    r: usize,
) -> Result<Seat, Refusal>
    requires { (r < 8) × (length ends.old ≡ 4096) × (length successors.old ≡ 16384) }
    ensures { SeatResult (record {
      tables = tables.entry.now;
      listed = listed.now;
      directories = directories.now;
      cells = cells.now;
      values = values.now;
      origins = origins.now;
      lengths = lengths.now;
    }) r result ends.old successors.old ends.new successors.new }
{
    let table = span_of(lengths, 5, 0, r, tables.len());
    let table_start = table.start;
    let table_end = table.end;
    let list = span_of(lengths, 5, 1, r, listed.len());
    let list_start = list.start;
    let list_end = list.end;
    let directory = span_of(lengths, 5, 2, r, directories.len());
    let directory_start = directory.start;
    let directory_end = directory.end;
    let own = span_of(lengths, 5, 3, r, values.len());
    let values_start = own.start;
    let values_end = own.end;
    let origin = span_of(lengths, 5, 4, r, origins.len());
    let origins_start = origin.start;
    let origins_end = origin.end;
    let ends_start = 512 * r;
    let ends_end = ends_start + 512;
    let flow_start = 2048 * r;
    let flow_end = flow_start + 2048;
    let sections = prepare(
        &tables[table_start..table_end],
        &listed[list_start..list_end],
        &directories[directory_start..directory_end],
        cells,
        &values[values_start..values_end],
        &origins[origins_start..origins_end],
        &mut ends[ends_start..ends_end],
        &mut successors[flow_start..flow_end],
    )?;
    let places = Places {
        table,
        directory,
        values: own,
    };
    let outcome = first_outcome(sections);
    Ok(Seat {
        sections,
        places,
        outcome,
    })
}

// All routines by number, up to the first that is refused.
pub fn seat_all(
    tables: &[i32],
    listed: &[i32],
    directories: &[u32],
    cells: &[u32],
    values: &[u32],
    origins: &[u32],
    lengths: &[u32],
    ends: &mut [u64],
    successors: &mut [u32],
    count: usize,
) -> Prepared
    requires { CountIs count lengths.now × (length ends.old ≡ 4096) × (length successors.old ≡ 16384) }
    ensures { AllSeatedAs result.seated (record {
      tables = tables.entry.now;
      listed = listed.now;
      directories = directories.now;
      cells = cells.now;
      values = values.now;
      origins = origins.now;
      lengths = lengths.now;
    }) result.seats ends.new successors.new }
{
    let seat = no_seat();
    let mut seats = [seat; 8];
    for r in 0..count {
        let seated = seat_routine(
            tables,
            listed,
            directories,
            cells,
            values,
            origins,
            lengths,
            ends,
            successors,
            r,
        );
        match seated {
            Err(refusal) => {
                return Prepared {
                    seated: Err(SetRefusal {
                        routine: r,
                        refusal,
                    }),
                    seats,
                };
            }
            Ok(seat) => {
                seats[r] = seat;
            }
        }
    }
    Prepared {
        seated: Ok(()),
        seats,
    }
}
