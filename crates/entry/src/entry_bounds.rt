// Whether declared bounds are true at entry. Ends are whole numbers: a constant of any size is compared without a sum that wraps.
ghost use Rattle.std.specs.Prelude.{◌≡◌, ◌+◌, ◌^◌, ◌<◌, ◌≤◌, leb, length, get_or};
ghost use Rattle.rules.specs.Ranges.{Sized};
ghost use Rattle.machine.specs.Machine.{end_value, bounds_true};

use crate::ends::end_of;
use machine::{scaled, value_at};
use rules::lookups::{bounds_at, is_string, is_terminated, size_at};
use rules::{Environment, upper_limit};
use sums::BIAS;
use table::variables::End;

// Constants from 2^40 on are above every address.
const LARGE: u64 = 1099511627776;

// low <= end
fn starts_by(values: &[u32], size: u64, e: End, low: u64) -> bool
    requires { (low < 2 ^ 40) × (size ≤ 8) }
    ensures { result ≡ leb low (end_value values.now size e) }
{
    let sum = value_at(values, e.pointer) + scaled(size, value_at(values, e.integer));
    if e.constant >= LARGE {
        return true;
    }
    low <= sum + e.constant
}

// end <= high
fn ends_by(values: &[u32], size: u64, e: End, high: u64) -> bool
    requires { (high < 2 ^ 40) × (size ≤ 8) }
    ensures { result ≡ leb (end_value values.now size e) high }
{
    let sum = value_at(values, e.pointer) + scaled(size, value_at(values, e.integer));
    if e.constant >= LARGE {
        return false;
    }
    sum + e.constant <= high
}

// Where the object whose pair starts at `pair` ends.
fn object_end(directory: &[u32], pair: usize) -> u64
    requires { pair + 1 < length directory.now }
    ensures value { result ≡ get_or directory.now pair 0 + get_or directory.now (pair + 1) 0 }
    ensures small { result < 2 ^ 33 }
{
    value_at(directory, pair) + value_at(directory, pair + 1)
}

// The pointer is null, or its origin is an object of the directory, a terminated one for a pointer of kind 2, and its ends lie there, up to its upper limit.
pub(crate) fn bounds_true(
    environment: Environment,
    directory: &[u32],
    values: &[u32],
    origins: &[u32],
    p: usize,
) -> bool
    requires { Sized environment }
    ensures { result ≡ bounds_true environment directory.now values.now origins.now p }
{
    if value_at(values, p) == 0 {
        return true;
    }
    let origin = value_at(origins, p) as usize;
    if origin == 0 {
        return false;
    }
    let pair = 2 * (origin - 1);
    if pair + 1 >= directory.len() {
        return false;
    }
    let low = value_at(directory, pair);
    let end = object_end(directory, pair);
    let strings = environment.strings;
    let terminated = environment.terminated;
    let declared = environment.declared;
    let sizes = environment.sizes;
    let ended = is_terminated(terminated, origin - 1);
    let string = is_string(strings, p);
    let high = upper_limit(ended, end);
    let size = size_at(sizes, p);
    let bounds = bounds_at(declared, p);
    let lower = bounds.lower;
    let upper = bounds.upper;
    (!string | ended)
        & starts_by(values, size, end_of(lower), low + BIAS)
        & ends_by(values, size, end_of(upper), high + BIAS)
}
