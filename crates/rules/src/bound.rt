// One bound that is in force, read without the rest of what a table declares: that is large to hold.
ghost use Rattle.std.specs.Prelude.{◌≡◌, get_or};
ghost use Rattle.rules.specs.BoundsRules.{nothing_known, element_size, row_bound};
ghost use Rattle.rules.specs.Verdict.{environment_of};

use crate::declarations::{bounds_of, row_bounds, variable_size};
use crate::{Bounds, NOTHING_KNOWN};
use words::sections::Sections;

// The bounds that the pointer p itself declares.
fn read_own(table: &[i32], sections: Sections, p: usize) -> Bounds
    ensures { result ≡ get_or (environment_of table.now sections).declared p nothing_known }
{
    if p < 16 {
        return bounds_of(table::variables::read_variable(table, sections, p));
    }
    NOTHING_KNOWN
}

fn read_size(table: &[i32], sections: Sections, p: usize) -> u64
    ensures { result ≡ element_size (environment_of table.now sections) p }
{
    if p < 16 {
        return variable_size(table::variables::read_variable(table, sections, p));
    }
    1
}

fn row_at(table: &[i32], sections: Sections, row: usize) -> Bounds
    ensures { result ≡ get_or (environment_of table.now sections).rows row nothing_known }
{
    if row < 64 {
        return row_bounds(table::variables::read_row(table, sections, row));
    }
    NOTHING_KNOWN
}

// The bounds that a number in force stands for: 0 the pointer's own, else the row's number and 1.
pub fn read_bound(table: &[i32], sections: Sections, n: usize, p: usize) -> Bounds
    ensures { result ≡ row_bound (environment_of table.now sections) n p }
{
    if n == 0 {
        return read_own(table, sections, p);
    }
    let size = read_size(table, sections, p);
    let row = row_at(table, sections, n - 1);
    let lower = row.lower;
    let upper = row.upper;
    Bounds { size, lower, upper }
}
