// Which bounds an effect leaves as they are: they need not be made anew, nor shown again.
ghost use Rattle.std.specs.Prelude.{◌≡◌};
ghost use Rattle.rules.specs.BoundsRules.{names};
ghost use Rattle.bounds.specs.Stays.{end_stays, bounds_stay, left_alone, changed_by, replaced_by, end_same, bounds_same, made_same};

use rules::{Bounds, Effect};
use table::variables::End;

pub(crate) fn end_names(end: End, v: usize) -> bool
    ensures { result ≡ names end v }
{
    (end.pointer == v) | (end.integer == v)
}

// An end that is known and does not name v.
fn end_stays(v: usize, end: Option<End>) -> bool
    ensures { result ≡ end_stays v end }
{
    let Some(e) = end else {
        return false;
    };
    !end_names(e, v)
}

fn bounds_stay(v: usize, b: Bounds) -> bool
    ensures { result ≡ bounds_stay v b }
{
    end_stays(v, b.lower) & end_stays(v, b.upper)
}

// The variable that an effect changes: an end that names it has to be looked at again. No variable has the number 17.
pub(crate) fn changed_by(effect: Effect) -> usize
    ensures { result ≡ changed_by effect }
{
    match effect {
        Effect::Keep => 17,
        Effect::Forget { target }
        | Effect::Shift { target, .. }
        | Effect::Copy { target, .. }
        | Effect::Object { target, .. } => target,
    }
}

// The pointer whose bounds an effect replaces by others, or 17.
pub(crate) fn replaced_by(effect: Effect) -> usize
    ensures { result ≡ replaced_by effect }
{
    match effect {
        Effect::Copy { target, .. } | Effect::Object { target, .. } => target,
        _ => 17,
    }
}

// An effect with these two numbers leaves the bounds `own` of p as they are.
pub(crate) fn left_alone(changed: usize, replaced: usize, p: usize, own: Bounds) -> bool
    ensures { result ≡ left_alone changed replaced p own }
{
    (p != replaced) & bounds_stay(changed, own)
}

// An end that is the same after a change of v: it does not name v, or is not known.
fn end_same(v: usize, end: Option<End>) -> bool
    ensures { result ≡ end_same v end }
{
    let Some(e) = end else {
        return true;
    };
    !end_names(e, v)
}

fn bounds_same(v: usize, b: Bounds) -> bool
    ensures { result ≡ bounds_same v b }
{
    end_same(v, b.lower) & end_same(v, b.upper)
}

// An effect with these two numbers makes the bounds `own` of p the same again: it leaves them as they are, or nothing is known of an end.
pub(crate) fn made_same(changed: usize, replaced: usize, p: usize, own: Bounds) -> bool
    ensures { result ≡ made_same changed replaced p own }
{
    (p != replaced) & bounds_same(changed, own)
}
