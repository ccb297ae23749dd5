// Both laptops register late boats at the same time: the first club's routine twice, in turn, a step each. Rows 1 to 4 are the one laptop's block, rows 5 to
// 8, which touch them, the other's.
ghost use Rattle.std.specs.Prelude.{◌≤◌, length};

use crate::{FIRST_ROW, LIMIT, ROWS, read_routine, show_rows, word_of};
use dispatcher::Said;
use std::rt::Files;

// Runs both routines for a late boat each; the values are row pointer, count of rows and boat, of the one laptop and of the other.
fn register_both(
    rt: &(impl Print + Eprint),
    tables: &[i32],
    lengths: &[u32],
    cells: &mut [u32],
    values: &mut [u32],
)
    requires { 6 ≤ length values.old }
{
    let directories = [1, 4, 9, 4, 13, 4, 5, 4, 17, 4, 21, 4];
    let origins = [1, 0, 0, 1, 0, 0];
    let listed = [0i32; 0];
    let mut ends = [0u64; 4096];
    let mut successors = [0u32; 16384];
    let row = values[0];
    let boat = values[2];
    let other_row = values[3];
    let other_boat = values[5];
    let dispatched = dispatcher::dispatch(
        tables,
        &listed,
        &directories,
        cells,
        values,
        &origins,
        lengths,
        1,
        LIMIT,
        &mut ends,
        &mut successors,
    );
    let said = dispatched.said;
    match said {
        Said::Ran => {
            let seats = dispatched.seats;
            let seat = seats[0];
            let other_seat = seats[1];
            let outcome = seat.outcome;
            let other_outcome = other_seat.outcome;
            text::console::show_text(rt, lines::report::entry_line(boat, row, outcome));
            text::console::show_text(
                rt,
                lines::report::entry_line(other_boat, other_row, other_outcome),
            );
        }
        _ => {
            let _ = rt.write_all(b"the turns are refused\n");
        }
    }
}

// The words of both laptops' tables, one behind the other.
#[derive(Clone, Copy)]
struct Words {
    pub one: usize,
    pub other: usize,
}

fn read_both(rt: &(impl Files + Print + Eprint), tables: &mut [i32]) -> Words {
    let one = read_routine(rt, "first_club", tables);
    let other = read_routine(rt, "first_club", &mut tables[one..]);
    Words { one, other }
}

pub(crate) fn both_laptops(rt: &(impl Files + Print + Eprint)) {
    let mut tables = [0i32; 15408];
    let words = read_both(rt, &mut tables);
    let lengths = [
        word_of(words.one),
        0,
        6,
        3,
        3,
        word_of(words.other),
        0,
        6,
        3,
        3,
    ];
    let mut cells = [0u32; 25];
    let mut values = [FIRST_ROW, ROWS, 0, 5, ROWS, 0];
    for i in 0..5 {
        values[2] = 101 + i;
        values[5] = 201 + i;
        register_both(rt, &tables, &lengths, &mut cells, &mut values);
    }
    show_rows(rt, &cells);
}
