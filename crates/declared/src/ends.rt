// When known bounds show declared ones.
ghost use Rattle.std.specs.Prelude.{◌^◌, ◌<◌, ◌≡◌};
ghost use Rattle.rules.specs.BoundsRules.{comparable_ends};
ghost use Rattle.rules.specs.Stored.{end_at_most, known_at_most, bounds_shown, address_safe};
ghost use Rattle.declared.specs.Shown.{same_known, same_bounds};

use chains::shown::{shows, shows_end};
use facts::FactSet;
use rules::Bounds;
use sums::{BIAS, ZERO};
use table::variables::End;

fn same_known(a: Option<End>, b: Option<End>) -> bool
    ensures { result ≡ same_known a b }
{
    let Some(e) = a else {
        return false;
    };
    let Some(g) = b else {
        return false;
    };
    e == g
}

// Known and declared bounds are the same, size and end by end: then they are shown, whatever the facts.
pub(crate) fn same_bounds(known: Bounds, declared: Bounds) -> bool
    ensures { result ≡ same_bounds known declared }
{
    (known.size == declared.size)
        & (same_known(known.lower, declared.lower) & same_known(declared.upper, known.upper))
}

// Ends of the sizes s and t can be compared: the sizes are equal, or neither names an integer.
fn comparable_ends(s: u64, a: End, t: u64, b: End) -> bool
    ensures { result ≡ comparable_ends s a t b }
{
    (s == t) | ((a.integer == ZERO) & (b.integer == ZERO))
}

// The end a, of the size s, is at most the end b, of the size t.
fn end_at_most(facts: FactSet, s: u64, a: End, t: u64, b: End) -> bool
    ensures { result ≡ end_at_most facts s a t b }
{
    if !comparable_ends(s, a, t, b) {
        return false;
    }
    if a == b {
        return true;
    }
    shows_end(
        facts, s, a.pointer, a.integer, a.constant, b.pointer, b.integer, b.constant,
    )
}

fn known_at_most(facts: FactSet, s: u64, a: Option<End>, t: u64, b: Option<End>) -> bool
    ensures { result ≡ known_at_most facts s a t b }
{
    let Some(e) = a else {
        return false;
    };
    let Some(g) = b else {
        return false;
    };
    end_at_most(facts, s, e, t, g)
}

// The declared bounds of p are shown where `known` are its known bounds. The ends come first: where they are the same, the facts are not asked.
pub(crate) fn bounds_shown(facts: FactSet, p: usize, known: Bounds, declared: Bounds) -> bool
    ensures { result ≡ bounds_shown facts p known declared }
{
    let known_lower = known.lower;
    let declared_lower = declared.lower;
    let s = known.size;
    let t = declared.size;
    if known_at_most(facts, s, known_lower, t, declared_lower) {
        let known_upper = known.upper;
        let declared_upper = declared.upper;
        if known_at_most(facts, t, declared_upper, s, known_upper) {
            return true;
        }
    }
    shows(facts, p, ZERO, BIAS)
}

// The address p + i + k, an end of the size of p, is shown to lie in the declared bounds of p, and p not to be null.
pub(crate) fn address_safe(facts: FactSet, p: usize, i: usize, k: u64, declared: Bounds) -> bool
    requires { k < 2 ^ 34 }
    ensures { result ≡ address_safe facts p i k declared }
{
    let size = declared.size;
    if !shows(facts, ZERO, p, BIAS - 1) {
        return false;
    }
    let lower = declared.lower;
    let address = Some(End {
        pointer: p,
        integer: i,
        constant: k,
    });
    if !known_at_most(facts, size, lower, size, address) {
        return false;
    }
    let upper = declared.upper;
    let next = Some(End {
        pointer: p,
        integer: i,
        constant: k + 1,
    });
    known_at_most(facts, size, next, size, upper)
}
