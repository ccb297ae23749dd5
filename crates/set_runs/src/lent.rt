// Where a run reads each routine of a set, and what it lays out for it.
ghost use Rattle.std.specs.Prelude.{◌+◌, ◌-◌, ◌*◌, ◌<◌, ◌≤◌, cond, ◌≡◌, eqb, length};
ghost use Rattle.words.specs.Sections.{statement_start};
ghost use Rattle.statements.specs.Decode.{decoded_call_at};
ghost use Rattle.rules.specs.BoundsRules.{own_rows};
ghost use Rattle.rules.specs.Verdict.{environment_of};
ghost use Rattle.entry.specs.Ends.{ends_of};
ghost use Rattle.parts.specs.Parts.{Replaced};
ghost use Rattle.set_runs.specs.Lent.{part_in, read_in, sections_in};

use entry::ends::lay_ends;
use interpreter::starts::copy_ends;
use parts::span_of;
use rules::read_environment;
use statements::CallSite;
use statements::decode::decode_call_at;
use table::sections_of;
use words::sections::Sections;

// Where the words of a routine stand, and its sections there.
#[derive(Clone, Copy)]
pub(crate) struct Part {
    pub start: usize,
    pub end: usize,
    pub sections: Sections,
}

// A routine behind the first is read from `objects` words before its table on.
fn back(n: usize, start: usize, objects: usize) -> usize
    ensures { result ≡ start - cond (eqb n 0) 0 objects }
{
    if n == 0 {
        return start;
    }
    if objects > start {
        return 0;
    }
    start - objects
}

// Where routine n is read: with the objects of routine 0 its sections are where they were when it was checked.
pub(crate) fn part_of(tables: &[i32], lengths: &[u32], n: usize) -> Part
    requires { n < 8 }
    ensures value { result ≡ part_in tables.now lengths.now n }
    ensures within { (result.start ≤ result.end) × (result.end ≤ length tables.now) }
{
    let first = span_of(lengths, 1, 0, 0, tables.len());
    let own = span_of(lengths, 1, 0, n, tables.len());
    let shared = sections_of(&tables[first.start..first.end]);
    let sections = sections_of(&tables[own.start..own.end]);
    Part {
        start: back(n, own.start, shared.objects),
        end: own.end,
        sections: Sections {
            start: sections.start,
            objects: shared.objects,
            variables: sections.variables,
            statements: sections.statements,
            rows: sections.rows,
        },
    }
}

// The rows in force are made anew at each call: the ends of the routine's own bounds, in its part of the room.
pub(crate) fn lay_routine(tables: &[i32], lengths: &[u32], n: usize, ends: &mut [u64])
    requires { (n < 8) × (512 * n + 512 ≤ length ends.old) }
    ensures { Replaced (512 * n) (512 * n + 512) ends.old (ends_of (environment_of (read_in tables.now lengths.now n)
        (sections_in tables.now lengths.now n)) own_rows) ends.new }
{
    let part = part_of(tables, lengths, n);
    let environment = read_environment(&tables[part.start..part.end], part.sections);
    let room_start = 512 * n;
    let room_end = room_start + 512;
    copy_ends(lay_ends(environment), &mut ends[room_start..room_end]);
}

// The call at a statement of routine n.
pub(crate) fn call_at(tables: &[i32], lengths: &[u32], n: usize, at: usize) -> CallSite
    requires { (n < 8) × (statement_start (sections_in tables.now lengths.now n) at + 7 ≤ length (read_in tables.now lengths.now n)) }
    ensures { result ≡ decoded_call_at (read_in tables.now lengths.now n) (sections_in tables.now lengths.now n)
        at }
{
    let part = part_of(tables, lengths, n);
    decode_call_at(&tables[part.start..part.end], part.sections, at)
}

// How many variables routine n has.
pub(crate) fn variables_of(tables: &[i32], lengths: &[u32], n: usize) -> usize
    requires { n < 8 }
    ensures { result ≡ (sections_in tables.now lengths.now n).variables }
{
    let part = part_of(tables, lengths, n);
    part.sections.variables
}
