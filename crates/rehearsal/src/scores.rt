// A day is scored by three routines that call each other (routines/handicap.c): the handicap formula, the scoring of a class, which calls it for each row, and
// the day, which calls both. The rows of the keelboats touch those of the dinghies; a row is elapsed time, allowance and corrected time.
ghost use Rattle.std.specs.Prelude.{◌≤◌, length};

use crate::{LIMIT, read_table, word_of};
use answers::stops::Outcome;
use std::rt::Files;

// The words of the three tables, one behind the other.
fn read_set(rt: &(impl Files + Eprint), tables: &mut [i32]) -> [u32; 3] {
    let formula = read_table(rt, "handicap.0.tbl", tables);
    let class = read_table(rt, "handicap.1.tbl", &mut tables[formula..]);
    let before = formula + class;
    let day = read_table(rt, "handicap.2.tbl", &mut tables[before..]);
    [word_of(formula), word_of(class), word_of(day)]
}

// The corrected time of each boat: boats 1 to 5 have a row, boat 6 is the guest.
fn show_times(rt: &(impl Print + Eprint), cells: &[u32], guest: u32)
    requires { 16 ≤ length cells.now }
{
    for row in 1usize..6 {
        text::console::show_text(
            rt,
            lines::report::corrected_line(row as u32, cells[3 * row]),
        );
    }
    text::console::show_text(rt, lines::report::corrected_line(6, guest));
}

// The values are miles, the guest's elapsed time and allowance, the best of either class, the guest's corrected time, row pointer and count of rows.
pub(crate) fn score_day(rt: &(impl Files + Print + Eprint)) {
    let mut tables = [0i32; 7704];
    let lengths = read_set(rt, &mut tables);
    let directory = [1, 9, 10, 6];
    let mut cells = [
        0, 2710, 40, 0, 2655, 25, 0, 2840, 60, 0, 2390, 12, 0, 2405, 15, 0,
    ];
    let mut values = [6, 2500, 30, 0, 0, 0, 0, 0];
    let origins = [0u32; 8];
    let mut member = [0i32; 7720];
    let mut ends = [0u64; 4096];
    let mut successors = [0u32; 16384];
    let ran = set_runs::run_set(
        &tables,
        &lengths,
        &directory,
        &mut cells,
        &mut values,
        &origins,
        LIMIT,
        &mut member,
        &mut ends,
        &mut successors,
    );
    let Some(ended) = ran else {
        return;
    };
    let outcome = ended.outcome;
    let Outcome::Done { steps: _ } = outcome else {
        let _ = rt.write_all(b"the day is not scored\n");
        return;
    };
    show_times(rt, &cells, values[5]);
}
