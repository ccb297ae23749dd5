// Whether an effect touches declared bounds: only those have to be shown again.
ghost use Rattle.std.specs.Prelude.{◌≡◌, true, false, get_or};
ghost use Rattle.bounds.specs.Stays.{changed_by, replaced_by, left_alone};
ghost use Rattle.bounds.specs.Touched.{seen_as, touched, named_in, touches};

use crate::stays::{changed_by, left_alone, replaced_by};
use arrays::lowest;
use rules::lookups::{element_or, is_pointer};
use rules::{Bounds, Effect};
use std::array;

// What is asked for each statement: which variables are pointers, and the declared bounds in force. An environment, with its 64 rows, is large to pass.
#[derive(Clone, Copy)]
pub struct Seen {
    pub pointers: [bool; 17],
    pub declared: [Bounds; 16],
}

// For each variable, whether some pointer's declared bounds name it; for 17, whether some are not known.
#[derive(Clone, Copy)]
pub struct Named {
    pub each: [bool; 18],
}

// The effect leaves the known bounds `own` of p as they are: declared ones need not be shown again.
pub fn leaves_alone(effect: Effect, p: usize, own: Bounds) -> bool
    ensures { result ≡ left_alone (changed_by effect) (replaced_by effect) p own }
{
    left_alone(changed_by(effect), replaced_by(effect), p, own)
}

// Some pointer's declared bounds have to be shown again after the effect; where none have, all stay shown with any facts.
fn spoils(environment: Seen, effect: Effect) -> bool
    ensures { result ≡ touched (seen_as environment) effect }
{
    let changed = changed_by(effect);
    let replaced = replaced_by(effect);
    let spoilt = |p: usize| environment.pointers[p]
        & !left_alone(changed, replaced, p, environment.declared[p]);
    lowest(16, spoilt) < 16
}

pub fn named_in(environment: Seen) -> Named
    ensures { result.each ≡ named_in (seen_as environment) }
{
    Named {
        each: array::from_fn(|v| spoils(environment, Effect::Forget { target: v })),
    }
}

// Some pointer's declared bounds have to be shown again after the effect: they name what it changes, or it replaces them.
pub fn touches(named: Named, pointers: [bool; 17], effect: Effect) -> bool
    ensures { result ≡ touches named.each pointers effect }
{
    element_or(named.each, changed_by(effect), true) | is_pointer(pointers, replaced_by(effect))
}
