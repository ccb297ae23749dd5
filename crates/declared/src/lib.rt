// Whether declared bounds are shown: after a statement, after a bundle, at an access in one.
#![tactic(auto)]

pub mod calls; // calls.rt: whether the arguments of a call fit the callee
mod ends; // ends.rt: when known bounds show declared ones
pub mod force; // force.rt: the rows in force and what they put in force: the bounds that each pointer declares, and the variables that these name

ghost use Rattle.std.specs.Prelude.{◌^◌, ◌<◌, ◌≡◌, Err};
ghost use Rattle.statements.specs.declared.Simple.TheVariants.{Declare};
ghost use Rattle.rules.specs.Stored.{unshown, row_unshown, access_shown, access_safe, bounds_after};
ghost use Rattle.answers.specs.declared.refusals.Refusal.TheVariants.{BoundsNotShown};
ghost use Rattle.rules.specs.Rules.{bounds_at};
ghost use Rattle.rules.specs.Verdict.{environment_of, verdict_of};
ghost use Rattle.rules.specs.Ranges.{InRange, Short};
ghost use Rattle.bounds.specs.Touched.{seen_as};
ghost use Rattle.declared.specs.Shown.{access_of, is_access, declares_of};

use answers::refusals::Refusal;
use bounds::KnownBounds;
use bounds::touched::{Seen, leaves_alone};
use bounds::transfer::{effect_on, source_of};
use ends::{address_safe, bounds_shown, same_bounds};
use facts::FactSet;
use rules::lookups::bounds_at;
use rules::{Effect, read_bound};
use statements::Simple;
use words::sections::Sections;

// Refusal 8.
fn not_shown(statement: usize, pointer: usize) -> Result<(), Refusal>
    ensures { result ≡ Err (BoundsNotShown statement pointer) }
{
    Err(Refusal::BoundsNotShown { statement, pointer })
}

// The lowest pointer whose declared bounds are not shown after the effect, where the declared bounds were the known ones.
pub fn check_effect(
    environment: Seen,
    facts: FactSet,
    effect: Effect,
    at: usize,
) -> Result<(), Refusal>
    requires { Short effect }
    ensures { result ≡ verdict_of (bounds_at at (unshown (seen_as environment) facts (bounds_after effect environment.declared))) }
{
    let from = source_of(effect);
    let source = environment.declared[from];
    // A plain loop: by `arrays::lowest` it would be as long, with the same steps in its test.
    for p in 0..16 {
        let declared = environment.declared[p];
        if environment.pointers[p] & !leaves_alone(effect, p, declared) {
            let known = effect_on(effect, p, declared, source);
            if !bounds_shown(facts, p, known, declared) {
                return not_shown(at, p);
            }
        }
    }
    Ok(())
}

// The lowest pointer whose declared bounds are not shown by the known ones.
pub fn check_known(
    environment: Seen,
    facts: FactSet,
    known: KnownBounds,
    at: usize,
) -> Result<(), Refusal>
    ensures { result ≡ verdict_of (bounds_at at (unshown (seen_as environment) facts known.each)) }
{
    // A plain loop, as in `check_effect`.
    for p in 0..16 {
        let own = known.each[p];
        let declared = environment.declared[p];
        if environment.pointers[p] & !same_bounds(own, declared) {
            if !bounds_shown(facts, p, own, declared) {
                return not_shown(at, p);
            }
        }
    }
    Ok(())
}

// The pointer, the index and the constant by which a statement reads or writes.
#[derive(Clone, Copy)]
struct Access {
    pointer: usize,
    index: usize,
    constant: u64,
}

// The access of a statement, if it makes one.
fn access_of(simple: Simple) -> Option<Access>
    ensures { result ≡ access_of simple }
{
    match simple {
        Simple::Load {
            pointer,
            index,
            constant,
            ..
        } => Some(Access {
            pointer,
            index,
            constant,
        }),
        Simple::Store {
            pointer,
            index,
            constant,
            ..
        } => Some(Access {
            pointer,
            index,
            constant,
        }),
        _ => None,
    }
}

// The statement reads or writes a cell.
pub fn is_access(simple: Simple) -> bool
    ensures { result ≡ is_access simple }
{
    access_of(simple).is_some()
}

// An access needs the declared bounds of its pointer shown.
pub fn access_shown(environment: Seen, facts: FactSet, known: KnownBounds, simple: Simple) -> bool
    ensures { result ≡ access_shown (seen_as environment) facts known.each simple }
{
    let Some(Access { pointer, .. }) = access_of(simple) else {
        return true;
    };
    let each = known.each;
    let declared = environment.declared;
    bounds_shown(
        facts,
        pointer,
        bounds_at(each, pointer),
        bounds_at(declared, pointer),
    )
}

// The statement is an access that is shown safe (point 9).
pub fn access_safe(environment: Seen, facts: FactSet, simple: Simple) -> bool
    requires { InRange simple }
    ensures { result ≡ access_safe (seen_as environment) facts simple }
{
    let Some(
        Access {
            pointer,
            index,
            constant,
        },
    ) = access_of(simple)
    else {
        return false;
    };
    if pointer >= 16 {
        return false;
    }
    let declared = environment.declared[pointer];
    address_safe(facts, pointer, index, constant, declared)
}

// The pointer and the row that a kind 14 names.
#[derive(Clone, Copy)]
pub struct Declaration {
    pub pointer: usize,
    pub row: usize,
}

pub fn declares_of(simple: Simple) -> Option<Declaration>
    ensures { result ≡ declares_of simple }
{
    match simple {
        Simple::Declare { pointer, row } => Some(Declaration { pointer, row }),
        _ => None,
    }
}

// The row of a kind 14 must be shown by what is known before it.
pub fn check_row(
    table: &[i32],
    sections: Sections,
    facts: FactSet,
    known: KnownBounds,
    pointer: usize,
    row: usize,
    at: usize,
) -> Result<(), Refusal>
    requires { row < 2 ^ 40 }
    ensures { result ≡ verdict_of (bounds_at at (row_unshown (environment_of table.now sections) facts known.each (Declare pointer row))) }
{
    let each = known.each;
    let own = bounds_at(each, pointer);
    let bound = read_bound(table, sections, row + 1, pointer);
    if bounds_shown(facts, pointer, own, bound) {
        return Ok(());
    }
    not_shown(at, pointer)
}
