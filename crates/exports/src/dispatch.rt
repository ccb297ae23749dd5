// What C and Rust link for several routines in turn: the dispatcher on lent slices, with the answer as words in a lent slice (include/mizzengrape.h).
ghost use Rattle.std.specs.Prelude.{◌≡◌, ◌+◌, ◌≤◌, length};
ghost use Rattle.answers.specs.Answers.{reads};
ghost use Rattle.interpreter.specs.SmallLaws.{AnswerSmall};
ghost use Rattle.seats.specs.SeatAt.{seat_at};
ghost use Rattle.exports.specs.DispatchWords.{put_five, routine_words, dispatch_words, DispatchAnswer};
ghost use Rattle.exports.specs.DispatchLaws.{put_at, AllSmall, SaidSmall, is_answered};

use crate::put_outcome;
use answers::stops::Outcome;
use dispatcher::Said;
use seats::Seat;

fn put_five(answer: &mut [u32], a: u32, b: u32, c: u32, d: u32, e: u32)
    requires { 5 ≤ length answer.old }
    ensures { answer.new ≡ put_five answer.old a b c d e }
{
    answer[0] = a;
    answer[1] = b;
    answer[2] = c;
    answer[3] = d;
    answer[4] = e;
}

// The four words of an outcome from index `at` on.
fn put_outcome_at(answer: &mut [u32], at: usize, outcome: Outcome)
    requires { (at + 4 ≤ length answer.old) × AnswerSmall (reads outcome) }
    ensures { answer.new ≡ put_at at (reads outcome) answer.old }
{
    put_outcome(&mut answer[at..], outcome);
}

// The words of `count` routines, behind those of what is said.
fn put_routines(answer: &mut [u32], seats: [Seat; 8], count: usize)
    requires { AllSmall (λ r. reads (seat_at seats r).outcome) count × (37 ≤ length answer.old) }
    ensures { answer.new ≡ routine_words (λ r. reads (seat_at seats r).outcome) count answer.old }
{
    for r in 0..count {
        let seat = seats[r];
        let outcome = seat.outcome;
        put_outcome_at(answer, 5 + 4 * r, outcome);
    }
}

// The words of what is said; false where that is that there is too little room.
fn put_said(answer: &mut [u32], said: Said, seats: [Seat; 8], count: usize) -> bool
    requires { SaidSmall said (λ r. reads (seat_at seats r).outcome) count × (37 ≤ length answer.old) }
    ensures { (result ≡ is_answered said) × (answer.new ≡ dispatch_words said (λ i. reads (seat_at seats i).outcome) count answer.old) }
{
    match said {
        Said::NoRoom => {
            return false;
        }
        Said::WrongCount => {
            put_five(answer, 3, 15, 0, 0, 0);
        }
        Said::Refused { routine, refusal } => {
            let number = refusal.number();
            let place = refusal.place() as u32;
            let pointer = refusal.pointer() as u32;
            put_five(answer, 3, number, routine as u32, place, pointer);
        }
        Said::Overlaps(routine) => {
            let place = routine as u32;
            put_five(answer, 3, 14, place, place, 0);
        }
        Said::Ran => {
            put_five(answer, 0, count as u32, 0, 0, 0);
            put_routines(answer, seats, count);
        }
    }
    true
}

// Runs several routines in turn, `quantum` steps a turn, `total` steps in all. False, and nothing written, where the answer has fewer than 37 words or the
// room for the set-up fewer than 4,096 and 16,384 numbers.
#[unsafe(no_mangle)]
pub extern "C" fn mizzengrape_dispatch(
    tables: &[i32],
    facts: &[i32],
    directories: &[u32],
    cells: &mut [u32],
    values: &mut [u32],
    origins: &[u32],
    lengths: &[u32],
    quantum: u32,
    total: u32,
    ends: &mut [u64],
    successors: &mut [u32],
    answer: &mut [u32],
) -> bool
    ensures { DispatchAnswer (record {
      tables = tables.entry.now;
      listed = facts.now;
      directories = directories.now;
      cells = cells.old;
      values = values.old;
      origins = origins.now;
      lengths = lengths.now;
    }) quantum total ends.old successors.old answer.old result values.new cells.new answer.new }
{
    if answer.len() < 37 {
        return false;
    }
    let count = lengths.len() / 5;
    let dispatched = dispatcher::dispatch(
        tables,
        facts,
        directories,
        cells,
        values,
        origins,
        lengths,
        quantum,
        total,
        ends,
        successors,
    );
    let said = dispatched.said;
    let seats = dispatched.seats;
    put_said(answer, said, seats, count)
}
