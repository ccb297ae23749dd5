// The turns, round by number.
#![tactic(auto)]

mod turn; // turn.rt: one turn

ghost use Rattle.std.specs.Prelude.{◌≡◌, ◌<◌};
ghost use Rattle.rounds.specs.Rounds.{AllRan};
ghost use Rattle.rounds.specs.Standing.{TurnsAsk, idle_after};
ghost use Rattle.seats.specs.SeatAt.{seat_at};

use seats::Seat;
use turn::{steps_of, take_turn};
use turns::{allowance, following_turn};

// The turns in a row that gave nothing, after one more.
fn idle_after(idle: usize, made: u32) -> usize
    requires { idle < 8 }
    ensures { result ≡ idle_after idle made }
{
    if made == 0 { idle + 1 } else { 0 }
}

// All turns: it ends after a whole round in which nobody was served. (Lists, lengths and origins stand for what the routines were lent; nothing reads them.)
pub fn take_turns(
    tables: &[i32],
    listed: &[i32],
    directories: &[u32],
    cells: &mut [u32],
    values: &mut [u32],
    origins: &[u32],
    lengths: &[u32],
    ends: &mut [u64],
    successors: &[u32],
    seats: [Seat; 8],
    count: usize,
    quantum: u32,
    total: u32,
) -> [Seat; 8]
    requires { TurnsAsk (record {
      tables = tables.now;
      listed = listed.now;
      directories = directories.now;
      cells = cells.old;
      values = values.old;
      origins = origins.now;
      lengths = lengths.now;
    }) successors.now count quantum total seats ends.old }
    ensures { AllRan (record {
      tables = tables.entry.now;
      listed = listed.now;
      directories = directories.now;
      cells = cells.old;
      values = values.old;
      origins = origins.now;
      lengths = lengths.now;
    }) quantum total (λ i. (seat_at result i).outcome) values.new cells.new }
{
    let mut seats = seats;
    // `as` for the total too: with `u64::from` four answers of the loop do not close.
    let limit = (count as u64) * (total as u64);
    let mut next = 0;
    let mut left = total;
    let mut idle = 0;
    for _taken in 0..limit {
        if idle >= count {
            return seats;
        }
        let seat = seats[next];
        let sections = seat.sections;
        let places = seat.places;
        let was = seat.outcome;
        let granted = allowance(quantum, left);
        let outcome = take_turn(
            tables,
            directories,
            cells,
            values,
            ends,
            successors,
            seat,
            next,
            granted,
        );
        let made = steps_of(outcome) - steps_of(was);
        left -= made;
        seats[next] = Seat {
            sections,
            places,
            outcome,
        };
        idle = idle_after(idle, made);
        next = following_turn(count, next);
    }
    seats
}
