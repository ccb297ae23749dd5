// The six checks. Each gives the step to the statement `next`, or stops at the statement `at` with the first check that fails.
#![tactic(auto)]

ghost use Rattle.std.specs.Prelude.{◌≡◌, true, not, cond, ℕ, ◌+◌, ◌^◌, ◌<◌, ◌≤◌, length, get_or};
ghost use Rattle.conditions.specs.Conditions.{relates};
ghost use Rattle.machine.specs.Machine.{end_value, condition_holds, none, first_of, beyond, load_failing, store_failing, arithmetic_failing};
ghost use Rattle.checks.specs.Checked.{size_in, string_in, end_in, declared_in, Named, Comparable, step_unless};
ghost use Rattle.checks.specs.declared.Step.TheVariants.{Go, Stop};
ghost use Rattle.answers.specs.declared.stops.Check.TheVariants.{NullAccess, OutOfBounds, Terminator};

use answers::stops::Check;
use conditions::Condition;
use machine::scaled;
use sums::BIAS;

// What a step says: the statement due after it, the check that fails, or that the statement is a call, which makes another routine run.
#[derive(Clone, Copy)]
pub enum Step {
    Go(usize),
    Stop(Check),
    Call,
}

// The value of a variable, or of the number that stands for zero: a run has a slot for each of them.
pub fn slot(values: &[u32], x: usize) -> u64
    requires { x < length values.now }
    ensures value { result ≡ get_or values.now x 0 }
    ensures small { result < 2 ^ 32 }
{
    u64::from(values[x])
}

// Relations in the order of the table.
fn relates(relation: usize, a: u64, b: u64) -> bool
    ensures { result ≡ relates relation a b }
{
    match relation {
        0 => a < b,
        1 => a >= b,
        2 => a > b,
        3 => a <= b,
        4 => a == b,
        _ => a != b,
    }
}

// Whether the condition holds for these values.
pub fn condition_holds(values: &[u32], c: Condition) -> bool
    requires { Comparable c values.now }
    ensures { result ≡ condition_holds values.now c }
{
    relates(
        c.relation,
        slot(values, c.left),
        slot(values, c.right) + c.offset,
    )
}

// The element size of a pointer.
pub fn size_in(ends: &[u64], pointer: usize) -> u64
    requires { (pointer < 16) × (length ends.now ≡ 512) }
    ensures { result ≡ size_in ends.now pointer }
{
    ends[480 + pointer]
}

// The pointer is of kind 2.
fn string_in(ends: &[u64], pointer: usize) -> bool
    requires { (pointer < 16) × (length ends.now ≡ 512) }
    ensures { result ≡ string_in ends.now pointer }
{
    ends[496 + pointer] == 1
}

// The whole number of the end whose three numbers start at `first`, of a pointer with this element size, with the bias.
fn end_value(ends: &[u64], values: &[u32], size: u64, first: usize) -> u64
    requires { (first + 2 < length ends.now) × (get_or ends.now (first + 2) 0 < 2 ^ 34) × (size ≤ 8) × (get_or ends.now first 0 < length values.now)
        × (get_or ends.now (first + 1) 0 < length values.now) }
    ensures { result ≡ end_value values.now size (end_in ends.now first) }
{
    let pointer = ends[first] as usize;
    let integer = ends[first + 1] as usize;
    slot(values, pointer) + scaled(size, slot(values, integer)) + ends[first + 2]
}

// The first of two checks that fails, or the step to the statement `next`.
fn step_unless(first: bool, one: Check, second: bool, other: Check, next: usize) -> Step
    ensures { result ≡ cond first (Stop one) (cond second (Stop other) (Go next)) }
{
    if first {
        return Step::Stop(one);
    }
    if second {
        return Step::Stop(other);
    }
    Step::Go(next)
}

// Beyond the upper end: not below it, or, of a pointer of kind 2, above it.
fn beyond(string: bool, upper: u64, address: u64) -> bool
    ensures { result ≡ beyond string upper address }
{
    if string {
        return upper < address;
    }
    upper <= address
}

// The first of the checks of an access that fails.
fn access_step(null: bool, outside: bool, spoils: bool, at: usize, next: usize) -> Step
    ensures { result ≡ cond null (Stop (NullAccess at)) (cond outside (Stop (OutOfBounds at)) (cond spoils (Stop (Terminator at)) (Go next))) }
{
    if null {
        return Step::Stop(Check::NullAccess(at));
    }
    if outside {
        return Step::Stop(Check::OutOfBounds(at));
    }
    if spoils {
        return Step::Stop(Check::Terminator(at));
    }
    Step::Go(next)
}

// Check 2, then 3, then 6: a store of `stored` through `pointer` to an address that has the bias. Below the upper end neither the pointer's kind nor what is
// stored matters, so that most accesses ask for neither.
fn test_store(
    ends: &[u64],
    values: &[u32],
    at: usize,
    next: usize,
    pointer: usize,
    address: u64,
    stored: u64,
) -> Step
    requires { (pointer < 16) × (length ends.now ≡ 512) × ((i : ℕ) → get_or ends.now i 0 < 2 ^ 34) × ((p : ℕ) → size_in ends.now p ≤ 8)
        × Named ends.now × (16 < length values.now) }
    ensures { result ≡ step_unless (store_failing (declared_in ends.now) values.now pointer address stored) at next }
{
    let null = slot(values, pointer) == 0;
    let size = size_in(ends, pointer);
    let lower = end_value(ends, values, size, 6 * pointer);
    let upper = end_value(ends, values, size, 6 * pointer + 3);
    if address < upper {
        return access_step(null, address < lower, false, at, next);
    }
    let outside = (address < lower) | beyond(string_in(ends, pointer), upper, address);
    let spoils = (address == upper) & (stored != 0);
    access_step(null, outside, spoils, at, next)
}

// The same, unless the store is known to pass them.
pub fn check_store(
    ends: &[u64],
    values: &[u32],
    at: usize,
    next: usize,
    pointer: usize,
    address: u64,
    stored: u64,
    known: bool,
) -> Step
    requires pointer_bound { (pointer < 16) × (length ends.now ≡ 512) × ((i : ℕ) → get_or ends.now i 0 < 2 ^ 34) × ((p : ℕ) → size_in ends.now p ≤ 8)
        × Named ends.now × (16 < length values.now) }
    requires stored_value { known ≡ true → store_failing (declared_in ends.now) values.now pointer address stored ≡ none }
    ensures { result ≡ step_unless (store_failing (declared_in ends.now) values.now pointer address stored) at next }
{
    if known {
        return Step::Go(next);
    }
    test_store(ends, values, at, next, pointer, address, stored)
}

// Check 2, then 3, of a load: as the store of 0.
pub fn check_load(
    ends: &[u64],
    values: &[u32],
    at: usize,
    next: usize,
    pointer: usize,
    address: u64,
    known: bool,
) -> Step
    requires pointer_bound { (pointer < 16) × (length ends.now ≡ 512) × ((i : ℕ) → get_or ends.now i 0 < 2 ^ 34) × ((p : ℕ) → size_in ends.now p ≤ 8)
        × Named ends.now × (16 < length values.now) }
    requires address_value { known ≡ true → load_failing (declared_in ends.now) values.now pointer address ≡ none }
    ensures { result ≡ step_unless (load_failing (declared_in ends.now) values.now pointer address) at next }
{
    check_store(ends, values, at, next, pointer, address, 0, known)
}

// Check 4, then 5: arithmetic on the address `base`, with its result, which has the bias.
pub fn check_arithmetic(at: usize, next: usize, base: u64, sum: u64) -> Step
    ensures { result ≡ step_unless (arithmetic_failing base sum) at next }
{
    let from_null = base == 0;
    let out_of_range = (sum <= BIAS) | (sum > BIAS + 4294967295);
    step_unless(
        from_null,
        Check::NullArithmetic(at),
        out_of_range,
        Check::AddressRange(at),
        next,
    )
}

// Check 1.
pub fn check_condition(values: &[u32], at: usize, next: usize, c: Condition) -> Step
    requires { Comparable c values.now }
    ensures { result ≡ step_unless (first_of (not (condition_holds values.now c)) 1 none) at next }
{
    if condition_holds(values, c) {
        return Step::Go(next);
    }
    Step::Stop(Check::ConditionFalse(at))
}
