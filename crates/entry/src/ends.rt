// The ends of declared bounds, laid out for the run's loop.
ghost use Rattle.std.specs.Prelude.{cond, ◌≡◌};
ghost use Rattle.rules.specs.BoundsRules.{own_rows};
ghost use Rattle.machine.specs.Machine.{end_of};
ghost use Rattle.entry.specs.Ends.{end_number, bounds_number, numbers_of, ends_of};

use rules::{Bounds, Environment};
use table::variables::End;

// The end of a declared bound; an integer has none.
pub(crate) fn end_of(e: Option<End>) -> End
    ensures { result ≡ end_of e }
{
    match e {
        Some(end) => end,
        None => End {
            pointer: 0,
            integer: 0,
            constant: 0,
        },
    }
}

// Pointer, integer or constant of an end.
fn end_number(e: End, j: usize) -> u64
    ensures { result ≡ end_number e j }
{
    match j {
        0 => e.pointer as u64,
        1 => e.integer as u64,
        _ => e.constant,
    }
}

// The numbers of the lower end, then those of the upper end.
fn bounds_number(b: Bounds, j: usize) -> u64
    ensures { result ≡ bounds_number b j }
{
    let lower = b.lower;
    let upper = b.upper;
    if j < 3 {
        return end_number(end_of(lower), j);
    }
    end_number(end_of(upper), j - 3)
}

// The three fills are loops: each call lays the ends anew, and by `array::from_fn` a call takes a tenth more (`compare bench calls`).
// Six numbers a pointer, those of its own bounds.
fn lay_own(environment: Environment) -> [u64; 96]
    ensures { result ≡ numbers_of 96 environment.declared }
{
    let declared = environment.declared;
    let mut ends = [0u64; 96];
    for i in 0..96 {
        ends[i] = bounds_number(declared[i / 6], i % 6);
    }
    ends
}

// Six numbers a row.
fn lay_rows(environment: Environment) -> [u64; 384]
    ensures { result ≡ numbers_of 384 environment.rows }
{
    let rows = environment.rows;
    let mut ends = [0u64; 384];
    for i in 0..384 {
        ends[i] = bounds_number(rows[i / 6], i % 6);
    }
    ends
}

// Of two numbers the first, or the second.
fn one_of(first: bool, x: u64, y: u64) -> u64
    ensures { result ≡ cond first x y }
{
    if first {
        return x;
    }
    y
}

// The numbers of each pointer's own bounds, those of the rows, the element sizes, and 1 for each pointer of kind 2.
pub fn lay_ends(environment: Environment) -> [u64; 512]
    ensures { result ≡ ends_of environment own_rows }
{
    let own = lay_own(environment);
    let laid = lay_rows(environment);
    let sizes = environment.sizes;
    let strings = environment.strings;
    let mut ends = [0u64; 512];
    for i in 0..512 {
        let bound = one_of(i < 96, own[i % 96], laid[(i + 288) % 384]);
        let mark = one_of(strings[i % 16], 1, 0);
        let other = one_of(i < 496, sizes[i % 16], mark);
        ends[i] = one_of(i < 480, bound, other);
    }
    ends
}
