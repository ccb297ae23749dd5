// The rows in force and what they put in force: the bounds that each pointer declares, and the variables that these name.
ghost use Rattle.std.specs.Prelude.{◌+◌, ◌<◌, ◌≡◌, set};
ghost use Rattle.rules.specs.BoundsRules.{own_rows, in_force};
ghost use Rattle.rules.specs.Rules.{same_rows};
ghost use Rattle.rules.specs.Verdict.{environment_of};
ghost use Rattle.bounds.specs.Touched.{seen_of};
ghost use Rattle.declared.specs.Force.{Framed, Forced, DeclaresRow};

use crate::{check_known, check_row};
use answers::refusals::Refusal;
use bounds::touched::{Named, Seen, named_in};
use bounds::{KnownBounds, bounds_after};
use facts::FactSet;
use rules::lookups::Rows;
use rules::{Effect, read_bound, read_pointers, read_sizes, read_spans};
use std::array;
use words::sections::Sections;

// What a statement's walk needs of what the table declares, whatever the rows: which variables are pointers, their element sizes, and the upper
// limits in the objects.
#[derive(Clone, Copy)]
pub struct Frame {
    pub pointers: [bool; 17],
    pub sizes: [u64; 16],
    pub spans: [u64; 16],
}

// The rows in force, what is seen of the environment in force, and the variables that its declared bounds name.
#[derive(Clone, Copy)]
pub struct Force {
    pub rows: Rows,
    pub seen: Seen,
    pub named: Named,
}

// The same rows are in force.
pub fn same_rows(a: Rows, b: Rows) -> bool
    ensures { result ≡ same_rows a.each b.each }
{
    a == b
}

pub fn frame_of(table: &[i32], sections: Sections) -> Frame
    ensures { Framed (environment_of table.now sections) result }
{
    Frame {
        pointers: read_pointers(table, sections),
        sizes: read_sizes(table, sections),
        spans: read_spans(table, sections),
    }
}

// What is seen where the rows are in force. What the table declares is read anew: rows change rarely, and all 64 rows are large to pass.
pub fn seen_in(table: &[i32], sections: Sections, rows: Rows) -> Seen
    ensures { result ≡ seen_of (in_force (environment_of table.now sections) rows.each) }
{
    Seen {
        pointers: read_pointers(table, sections),
        declared: array::from_fn(|p| read_bound(table, sections, rows.each[p], p)),
    }
}

// What the rows put in force. Not inlined: its temporaries would stand on the stack below each caller's calls.
#[inline(never)]
pub fn force_of(table: &[i32], sections: Sections, rows: Rows) -> Force
    ensures { Forced (environment_of table.now sections) rows.each result }
{
    let seen = seen_in(table, sections, rows);
    Force {
        rows,
        seen,
        named: named_in(seen),
    }
}

// At entry each pointer's own bound is in force, as the table declares it.
pub fn own_force(table: &[i32], sections: Sections) -> Force
    ensures { Forced (environment_of table.now sections) own_rows result }
{
    force_of(table, sections, Rows { each: [0; 16] })
}

// The row of a kind 14 comes into force.
pub fn with_row(rows: Rows, pointer: usize, row: usize) -> Rows
    requires { (pointer < 16) × (row < 64) }
    ensures { result.each ≡ set rows.each pointer (row + 1) }
{
    let mut each = rows.each;
    each[pointer] = row + 1;
    Rows { each }
}

// The verdict on a kind 14 outside a bundle, and what is in force after it.
#[derive(Clone, Copy)]
pub struct Declared {
    pub verdict: Result<(), Refusal>,
    pub force: Force,
}

pub fn declare_row(
    table: &[i32],
    sections: Sections,
    force: Force,
    facts: FactSet,
    pointer: usize,
    row: usize,
    at: usize,
) -> Declared
    requires { Forced (environment_of table.now sections) force.rows.each force × (pointer < 16) × (row < 64) }
    ensures { DeclaresRow (environment_of table.now sections) facts force.rows.each pointer row at result }
{
    let seen = force.seen;
    let declared = seen.declared;
    let known = KnownBounds { each: declared };
    let own = check_row(table, sections, facts, known, pointer, row, at);
    let Ok(()) = own else {
        return Declared {
            verdict: own,
            force,
        };
    };
    let rows = with_row(force.rows, pointer, row);
    let after = force_of(table, sections, rows);
    let verdict = check_known(after.seen, facts, bounds_after(Effect::Keep, known), at);
    Declared {
        verdict,
        force: after,
    }
}
