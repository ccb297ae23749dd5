// What a table declares, read once.
ghost use Rattle.std.specs.Prelude.{◌≡◌, ◌≤◌};
ghost use Rattle.arrays.specs.Tabulate.{tabulate};
ghost use Rattle.words.specs.Sections.{pointer_at, string_at, object_terminated};
ghost use Rattle.table.specs.Variables.{variable_at, row_at, object_at};
ghost use Rattle.rules.specs.BoundsRules.{upper_limit};
ghost use Rattle.rules.specs.Verdict.{bounds_of, variable_size, row_bounds, environment_of};

use crate::{Bounds, Environment, NOTHING_KNOWN};
use std::array;
use table::variables::{BoundsRow, Variable};
use words::sections::Sections;

// The declared bounds of a variable; an integer has none.
pub(crate) fn bounds_of(read: Option<Variable>) -> Bounds
    ensures { result ≡ bounds_of read }
{
    match read {
        Some(Variable::Pointer { size, lower, upper }) => Bounds {
            size,
            lower: Some(lower),
            upper: Some(upper),
        },
        _ => NOTHING_KNOWN,
    }
}

// The bounds of a row.
pub(crate) fn row_bounds(read: Option<BoundsRow>) -> Bounds
    ensures { result ≡ row_bounds read }
{
    let Some(BoundsRow { lower, upper }) = read else {
        return NOTHING_KNOWN;
    };
    Bounds {
        size: 1,
        lower: Some(lower),
        upper: Some(upper),
    }
}

// The element size of a variable; 1 for an integer.
pub(crate) fn variable_size(read: Option<Variable>) -> u64
    ensures { result ≡ variable_size read }
{
    match read {
        Some(Variable::Pointer { size, .. }) => size,
        _ => 1,
    }
}

pub fn read_sizes(table: &[i32], sections: Sections) -> [u64; 16]
    ensures { result ≡ tabulate 16 (λ v. variable_size (variable_at table.now sections v)) }
{
    array::from_fn(|v| variable_size(table::variables::read_variable(table, sections, v)))
}

pub fn read_pointers(table: &[i32], sections: Sections) -> [bool; 17]
    ensures { result ≡ tabulate 17 (pointer_at table.now sections) }
{
    array::from_fn(|v| words::sections::is_pointer(table, sections, v))
}

pub fn read_strings(table: &[i32], sections: Sections) -> [bool; 17]
    ensures { result ≡ tabulate 17 (string_at table.now sections) }
{
    array::from_fn(|v| words::sections::is_string(table, sections, v))
}

pub fn read_declared(table: &[i32], sections: Sections) -> [Bounds; 16]
    ensures { result ≡ tabulate 16 (λ v. bounds_of (variable_at table.now sections v)) }
{
    array::from_fn(|v| bounds_of(table::variables::read_variable(table, sections, v)))
}

fn read_lengths(table: &[i32], sections: Sections) -> [u64; 16]
    ensures { result ≡ tabulate 16 (object_at table.now sections) }
{
    array::from_fn(|o| table::variables::read_object(table, sections, o))
}

fn read_terminated(table: &[i32], sections: Sections) -> [bool; 16]
    ensures { result ≡ tabulate 16 (object_terminated table.now sections) }
{
    array::from_fn(|o| words::sections::object_terminated(table, sections, o))
}

// The upper limit of bounds in an object with the end `high`: all but the last cell of a terminated object.
pub fn upper_limit(terminated: bool, high: u64) -> u64
    ensures { (result ≡ upper_limit terminated high) × (result ≤ high) }
{
    if terminated & (1 <= high) {
        return high - 1;
    }
    high
}

pub fn read_spans(table: &[i32], sections: Sections) -> [u64; 16]
    ensures { result ≡ tabulate 16 (λ o. upper_limit (object_terminated table.now sections o) (object_at table.now sections o)) }
{
    array::from_fn(|o| {
        upper_limit(
            words::sections::object_terminated(table, sections, o),
            table::variables::read_object(table, sections, o),
        )
    })
}

fn read_rows(table: &[i32], sections: Sections) -> [Bounds; 64]
    ensures { result ≡ tabulate 64 (λ v. row_bounds (row_at table.now sections v)) }
{
    array::from_fn(|v| row_bounds(table::variables::read_row(table, sections, v)))
}

pub fn read_environment(table: &[i32], sections: Sections) -> Environment
    ensures { result ≡ environment_of table.now sections }
{
    Environment {
        pointers: read_pointers(table, sections),
        strings: read_strings(table, sections),
        sizes: read_sizes(table, sections),
        declared: read_declared(table, sections),
        lengths: read_lengths(table, sections),
        terminated: read_terminated(table, sections),
        spans: read_spans(table, sections),
        rows: read_rows(table, sections),
    }
}
