// The incident replayed with the blocks touching: rows 1 to 4 of the memory are this laptop's block, rows 5 to 8 the other laptop's, rows 9 to 12 the
// block that the scorer opens next. The routines for late entries of both clubs stand in data/ as files. Then the first club's routine on both laptops,
// in turn; and a day that is scored by routines that call each other.
#![tactic(auto)]

mod laptops; // laptops.rt: both laptops in turn
mod scores; // scores.rt: the handicap formula, called from two scoring routines

ghost use Rattle.std.specs.Prelude.{◌≤◌, length};
ghost use Rattle.std.specs.Counts.{IsPrefixLen};

use std::fs;
use std::rt::Files;
use text::input::read_full;

pub(crate) const FIRST_ROW: u32 = 1; // of this laptop's block

pub(crate) const OTHER_ROW: usize = 5; // the other laptop's first row

const NEXT_ROW: u32 = 9; // of the block that the scorer opens

pub(crate) const ROWS: u32 = 4; // of each block

pub(crate) const LIMIT: u32 = 1000;

// How many bytes of a file there are.
fn read_file(rt: &(impl Files + Eprint), name: &str, bytes: &mut [u8]) -> usize
    ensures { IsPrefixLen result bytes.new }
{
    match fs::open(rt, name) {
        Ok(mut file) => read_full(&mut file, bytes),
        Err(error) => {
            let _ = eprintln!(rt; "{name}: {error}");
            0
        }
    }
}

// How many words the table in a file has.
pub(crate) fn read_table(rt: &(impl Files + Eprint), name: &str, table: &mut [i32]) -> usize
    ensures { result ≤ length table.new }
{
    let mut bytes = [0u8; 65536];
    let size = read_file(rt, name, &mut bytes);
    files::encoding::read_words(&bytes[..size], table)
}

// Prints the verdict on the routine in a file and answers its words.
pub(crate) fn read_routine(
    rt: &(impl Files + Print + Eprint),
    name: &str,
    table: &mut [i32],
) -> usize
    ensures { result ≤ length table.new }
{
    let mut bytes = [0u8; 65536];
    let size = read_file(rt, name, &mut bytes);
    text::console::show_text(rt, lines::verdict_line(files::check_file(&bytes[..size])));
    files::encoding::read_words(&bytes[..size], table)
}

// A length as a word; a table has at most 7,704.
pub(crate) fn word_of(length: usize) -> u32 {
    if length > 7704 {
        return 0;
    }
    length as u32
}

// Runs the routine for one late boat; the values are row pointer, count of rows and boat.
fn register(
    rt: &(impl Print + Eprint),
    table: &[i32],
    cells: &mut [u32],
    values: &mut [u32],
    origins: &[u32],
)
    requires { 3 ≤ length values.old }
{
    let directory = [1, 4, 5, 4, 9, 4];
    let row = values[0];
    let boat = values[2];
    let listed = [0i32; 0];
    let outcome = interpreter::run(table, &listed, &directory, cells, values, origins, LIMIT);
    text::console::show_text(rt, lines::report::entry_line(boat, row, outcome));
}

fn show_first_row(rt: &(impl Print + Eprint), before: u32, after: u32) {
    text::console::show_text(rt, lines::report::first_row_line(before, after));
}

// The entry table, row by row.
pub(crate) fn show_rows(rt: &(impl Print + Eprint), cells: &[u32])
    requires { 13 ≤ length cells.now }
{
    for row in 1usize..13 {
        text::console::show_text(rt, lines::report::row_line(row as u32, cells[row]));
    }
}

fn first_club(rt: &(impl Files + Print + Eprint)) {
    let mut table = [0i32; 7704];
    let count = read_routine(rt, "first_club", &mut table);
    let mut cells = [0u32; 13];
    cells[OTHER_ROW] = 201;
    let mut values = [FIRST_ROW, ROWS, 0];
    for boat in 101..106 {
        values[2] = boat;
        register(rt, &table[..count], &mut cells, &mut values, &[1, 0, 0]);
    }
    text::console::show_text(rt, lines::report::left_line(values[1]));
    show_first_row(rt, 201, cells[OTHER_ROW]);
    let _ = rt.write_all(b"The scorer opens another block.\n");
    let mut next = [NEXT_ROW, ROWS, 105];
    register(rt, &table[..count], &mut cells, &mut next, &[3, 0, 0]);
    show_rows(rt, &cells);
}

fn second_club(rt: &(impl Files + Print + Eprint)) {
    let mut table = [0i32; 7704];
    let count = read_routine(rt, "second_club", &mut table);
    let mut cells = [0, 101, 102, 103, 104, 201, 0, 0, 0, 0, 0, 0, 0];
    let mut values = [FIRST_ROW, ROWS, 105];
    register(rt, &table[..count], &mut cells, &mut values, &[1, 0, 0]);
    show_first_row(rt, 201, cells[OTHER_ROW]);
}

fn main(rt: HostRuntime) {
    let _ = rt.write_all(
        b"First club: row pointer and count of rows are stepped together, in one bundle.\n",
    );
    first_club(&rt);
    let _ = rt.write_all(
        b"Second club: the count is raised before anything allows it, and the block is full.\n",
    );
    second_club(&rt);
    let _ = rt.write_all(b"Both laptops in turn, a step each, their blocks touching.\n");
    laptops::both_laptops(&rt);
    let _ = rt.write_all(
        b"The day is scored: one routine has the handicap formula, and both scoring routines call it.\n",
    );
    scores::score_day(&rt);
}
