// What an effect makes of the known bounds of all pointers.
#![tactic(auto)]

mod stays; // stays.rt: which bounds an effect leaves as they are: they need not be made anew, nor shown again
pub mod transfer; // transfer.rt: what an effect makes of the bounds of one pointer
pub mod touched; // touched.rt: whether an effect touches declared bounds: only those have to be shown again

ghost use Rattle.std.specs.Prelude.{◌≡◌};
ghost use Rattle.rules.specs.Stored.{bounds_after};
ghost use Rattle.rules.specs.Ranges.{Short};
ghost use Rattle.bounds.specs.Kept.{keeps_all};

use rules::{Bounds, Effect};
use stays::{changed_by, made_same, replaced_by};
use transfer::{effect_on, source_of};

// The known bounds of each pointer, inside a bundle.
#[derive(Clone, Copy)]
pub struct KnownBounds {
    pub each: [Bounds; 16],
}

// The effect leaves all known bounds as they are.
fn keeps_all(effect: Effect) -> bool
    ensures { result ≡ keeps_all effect }
{
    matches!(effect, Effect::Keep)
}

pub fn bounds_after(effect: Effect, known: KnownBounds) -> KnownBounds
    requires { Short effect }
    ensures { result.each ≡ bounds_after effect known.each }
{
    if keeps_all(effect) {
        return known;
    }
    let from = source_of(effect);
    let source = known.each[from];
    let changed = changed_by(effect);
    let replaced = replaced_by(effect);
    let mut next = known;
    for p in 0..16 {
        let own = known.each[p];
        if !made_same(changed, replaced, p, own) {
            next.each[p] = effect_on(effect, p, own, source);
        }
    }
    next
}
