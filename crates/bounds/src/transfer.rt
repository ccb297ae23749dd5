// What an effect makes of the bounds of one pointer.
ghost use Rattle.std.specs.Prelude.{◌≡◌, ◌^◌, ◌<◌};
ghost use Rattle.rules.specs.BoundsRules.{forget_end, weight, forget_bounds, object_bounds};
ghost use Rattle.rules.specs.Stored.{shift_constant, shift_end, shift_bounds};
ghost use Rattle.rules.specs.Ranges.{Short};
ghost use Rattle.bounds.specs.Transfer.{source_of, effect_on_one};

use crate::stays::end_names;
use rules::{Bounds, Effect};
use sums::{BIAS, LIMIT, ZERO};
use table::variables::End;

fn forget_end(v: usize, end: Option<End>) -> Option<End>
    ensures { result ≡ forget_end v end }
{
    let Some(e) = end else {
        return None;
    };
    if end_names(e, v) {
        return None;
    }
    end
}

// How often an end with this element size counts the variable v that it names.
fn weight_of(size: u64, v: usize, end: End) -> u64
    ensures { result ≡ weight size v end }
{
    if end.pointer == v {
        return 1;
    }
    size
}

// The end with its constant lowered by `weight` times k.
fn shift_constant(weight: u64, k: u64, end: End) -> Option<End>
    ensures { result ≡ shift_constant weight k end }
{
    if weight > 8 {
        return None;
    }
    if k >= LIMIT {
        return None;
    }
    if end.constant >= LIMIT {
        return None;
    }
    let moved = weight * k;
    let raised = end.constant + weight * BIAS;
    if moved > raised {
        return None;
    }
    Some(End {
        pointer: end.pointer,
        integer: end.integer,
        constant: raised - moved,
    })
}

fn shift_end(size: u64, v: usize, k: u64, end: Option<End>) -> Option<End>
    ensures { result ≡ shift_end size v k end }
{
    let Some(e) = end else {
        return None;
    };
    if end_names(e, v) {
        return shift_constant(weight_of(size, v, e), k, e);
    }
    end
}

fn forget_bounds(v: usize, b: Bounds) -> Bounds
    ensures { result ≡ forget_bounds v b }
{
    Bounds {
        size: b.size,
        lower: forget_end(v, b.lower),
        upper: forget_end(v, b.upper),
    }
}

fn shift_bounds(v: usize, k: u64, b: Bounds) -> Bounds
    ensures { result ≡ shift_bounds v k b }
{
    Bounds {
        size: b.size,
        lower: shift_end(b.size, v, k, b.lower),
        upper: shift_end(b.size, v, k, b.upper),
    }
}

fn object_bounds(p: usize, size: u64, length: u64) -> Bounds
    requires { length < 2 ^ 40 }
    ensures { result ≡ object_bounds p size length }
{
    Bounds {
        size,
        lower: Some(End {
            pointer: p,
            integer: ZERO,
            constant: BIAS,
        }),
        upper: Some(End {
            pointer: p,
            integer: ZERO,
            constant: BIAS + length,
        }),
    }
}

// The pointer whose bounds an effect copies; where it copies none, any.
pub fn source_of(effect: Effect) -> usize
    ensures { result ≡ source_of effect }
{
    match effect {
        Effect::Copy { source, .. } => source,
        _ => 0,
    }
}

// The known bounds of p after an effect: `own` are p's before it, `source` those of the pointer that is copied.
pub fn effect_on(effect: Effect, p: usize, own: Bounds, source: Bounds) -> Bounds
    requires { Short effect }
    ensures { result ≡ effect_on_one effect p own source }
{
    match effect {
        Effect::Keep => own,
        Effect::Forget { target } => forget_bounds(target, own),
        Effect::Shift { target, constant } => shift_bounds(target, constant, own),
        Effect::Copy { target, .. } => {
            if p == target {
                return forget_bounds(target, source);
            }
            forget_bounds(target, own)
        }
        Effect::Object {
            target,
            size,
            length,
        } => {
            if p == target {
                return object_bounds(target, size, length);
            }
            forget_bounds(target, own)
        }
    }
}
