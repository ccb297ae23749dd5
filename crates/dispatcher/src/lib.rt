// The dispatcher: several routines in turn in one lent memory.
#![tactic(auto)]

ghost use Rattle.std.specs.Prelude.{◌≡◌, true, ◌&&◌, ◌/◌, ◌%◌, eqb, leb, length};
ghost use Rattle.dispatcher.specs.Dispatch.{Promised, count_right, room_right};
ghost use Rattle.seats.specs.Lends.{count_of};
ghost use Rattle.seats.specs.SeatAt.{seat_at};
ghost use Rattle.seats.specs.Seats.{ReadyTo};

use answers::refusals::Refusal;
use overlaps::first_overlap;
use rounds::take_turns;
use rules::SetRefusal;
use seats::{Seat, no_seat, seat_all};

// What a call says.
#[derive(Clone, Copy)]
pub enum Said {
    // too little room is lent for the set-up
    NoRoom,
    // 15: the count of routines or the quantum is out of range
    WrongCount,
    // the first routine that its run alone refuses, with that refusal
    Refused { routine: usize, refusal: Refusal },
    // 14: the first routine whose objects overlap an earlier one's
    Overlaps(usize),
    Ran,
}

// What a call answers: what it says, and, where they ran, each routine's answer.
#[derive(Clone, Copy)]
pub struct Dispatched {
    pub said: Said,
    pub seats: [Seat; 8],
}

// The set-up of eight routines fits the room that is lent for it.
fn room_right(ends: usize, successors: usize) -> bool
    ensures { result ≡ (leb 4096 ends && leb 16384 successors) }
{
    (4096 <= ends) & (16384 <= successors)
}

// Five lengths a routine, 1 to 8 routines, and a quantum of 1 to 1,000.
fn count_right(lengths: usize, quantum: u32) -> bool
    ensures { result ≡ (eqb (lengths % 5) 0 && leb 1 (lengths / 5) && leb (lengths / 5) 8 && leb 1 quantum && leb quantum 1000) }
{
    let count = lengths / 5;
    (lengths % 5 == 0) & (1 <= count) & (count <= 8) & (1 <= quantum) & (quantum <= 1000)
}

// An answer with seats of nobody.
fn only(said: Said) -> Dispatched
    ensures { result.said ≡ said }
{
    let seat = no_seat();
    Dispatched {
        said: said,
        seats: [seat; 8],
    }
}

// All routines are ready: cause 14, then the turns.
fn run_ready(
    tables: &[i32],
    listed: &[i32],
    directories: &[u32],
    cells: &mut [u32],
    values: &mut [u32],
    origins: &[u32],
    lengths: &[u32],
    ends: &mut [u64],
    successors: &[u32],
    seats: [Seat; 8],
    count: usize,
    quantum: u32,
    total: u32,
) -> Dispatched
    requires { (count_right (record {
      tables = tables.now;
      listed = listed.now;
      directories = directories.now;
      cells = cells.old;
      values = values.old;
      origins = origins.now;
      lengths = lengths.now;
    }) quantum ≡ true) × (count ≡ count_of (record {
      tables = tables.now;
      listed = listed.now;
      directories = directories.now;
      cells = cells.old;
      values = values.old;
      origins = origins.now;
      lengths = lengths.now;
    }))
        × ReadyTo (record {
          tables = tables.now;
          listed = listed.now;
          directories = directories.now;
          cells = cells.old;
          values = values.old;
          origins = origins.now;
          lengths = lengths.now;
        }) count seats ends.old successors.now }
    ensures { Promised true (record {
      tables = tables.entry.now;
      listed = listed.now;
      directories = directories.now;
      cells = cells.old;
      values = values.old;
      origins = origins.now;
      lengths = lengths.now;
    }) quantum total result.said (λ i. (seat_at result.seats i).outcome) values.new cells.new }
{
    let first = first_overlap(directories, seats, count);
    if first < count {
        return Dispatched {
            said: Said::Overlaps(first),
            seats: seats,
        };
    }
    let after = take_turns(
        tables,
        listed,
        directories,
        cells,
        values,
        origins,
        lengths,
        ends,
        successors,
        seats,
        count,
        quantum,
        total,
    );
    Dispatched {
        said: Said::Ran,
        seats: after,
    }
}

// The count is right, and the room is that of eight routines: the routines by number, cause 14, then the turns.
fn dispatch_counted(
    tables: &[i32],
    listed: &[i32],
    directories: &[u32],
    cells: &mut [u32],
    values: &mut [u32],
    origins: &[u32],
    lengths: &[u32],
    ends: &mut [u64],
    successors: &mut [u32],
    quantum: u32,
    total: u32,
) -> Dispatched
    requires { (count_right (record {
      tables = tables.now;
      listed = listed.now;
      directories = directories.now;
      cells = cells.old;
      values = values.old;
      origins = origins.now;
      lengths = lengths.now;
    }) quantum ≡ true) × (length ends.old ≡ 4096) × (length successors.old ≡ 16384) }
    ensures { Promised true (record {
      tables = tables.entry.now;
      listed = listed.now;
      directories = directories.now;
      cells = cells.old;
      values = values.old;
      origins = origins.now;
      lengths = lengths.now;
    }) quantum total result.said (λ i. (seat_at result.seats i).outcome) values.new cells.new }
{
    let count = lengths.len() / 5;
    let prepared = seat_all(
        tables,
        listed,
        directories,
        cells,
        values,
        origins,
        lengths,
        ends,
        successors,
        count,
    );
    let seated = prepared.seated;
    let seats = prepared.seats;
    match seated {
        Err(SetRefusal { routine, refusal }) => Dispatched {
            said: Said::Refused {
                routine: routine,
                refusal: refusal,
            },
            seats: seats,
        },
        Ok(()) => {
            run_ready(
                tables,
                listed,
                directories,
                cells,
                values,
                origins,
                lengths,
                ends,
                successors,
                seats,
                count,
                quantum,
                total,
            )
        }
    }
}

// Runs several routines in turn, `quantum` steps a turn, `total` steps in all. Their parts come one after the other in the lent slices, with five lengths a
// routine: table, list of loop facts, directory, values, origins. The room for the set-up has 4,096 and 16,384 numbers at least. Cells and values are
// changed in place; a refusal changes nothing.
pub fn dispatch(
    tables: &[i32],
    listed: &[i32],
    directories: &[u32],
    cells: &mut [u32],
    values: &mut [u32],
    origins: &[u32],
    lengths: &[u32],
    quantum: u32,
    total: u32,
    ends: &mut [u64],
    successors: &mut [u32],
) -> Dispatched
    ensures { Promised (room_right ends.old successors.old) (record {
      tables = tables.entry.now;
      listed = listed.now;
      directories = directories.now;
      cells = cells.old;
      values = values.old;
      origins = origins.now;
      lengths = lengths.now;
    }) quantum total result.said (λ i. (seat_at result.seats i).outcome) values.new cells.new }
{
    if !room_right(ends.len(), successors.len()) {
        return only(Said::NoRoom);
    }
    if !count_right(lengths.len(), quantum) {
        return only(Said::WrongCount);
    }
    dispatch_counted(
        tables,
        listed,
        directories,
        cells,
        values,
        origins,
        lengths,
        &mut ends[..4096],
        &mut successors[..16384],
        quantum,
        total,
    )
}
