// The step of a statement of kinds 1 to 10 and 14.
ghost use Rattle.std.specs.Prelude.{◌≡◌, true, ℕ, ◌+◌, ◌-◌, ◌*◌, ◌^◌, ◌<◌, ◌≤◌, eqb, length, get_or};
ghost use Rattle.sums.specs.Numbers.{bias};
ghost use Rattle.machine.specs.Machine.{value, address, indexed, none, failing, arithmetic_failing, load_failing, store_failing};
ghost use Rattle.checks.specs.Checked.{size_in, declared_in};
ghost use Rattle.checks.specs.declared.Step.TheVariants.{Go};
ghost use Rattle.steps.specs.Bare.{offset_failing, index_failing, copied, Accessible, Operable, mark, Marked, simple_move, Assigns, Moves};

use crate::MARK;
use crate::numbers::{add_constant, combine};
use checks::{Step, check_arithmetic, check_condition, check_load, check_store, size_in, slot};
use machine::scaled;
use statements::Simple;
use sums::BIAS;

// Kinds 6 and 7: the target takes the sum, which has the bias, unless check 4 or 5 fails.
fn assign_pointer(
    at: usize,
    next: usize,
    target: usize,
    base: u64,
    sum: u64,
    values: &mut [u32],
) -> Step
    requires { target < length values.old }
    ensures { Assigns (arithmetic_failing base sum) at next target (sum - bias) values.old result values.new }
{
    let arithmetic = check_arithmetic(at, next, base, sum);
    match arithmetic {
        Step::Go(_) => {
            values[target] = (sum - BIAS) as u32;
            arithmetic
        }
        Step::Stop(_) | Step::Call => arithmetic,
    }
}

// Kind 6: p := q + k, unless check 4 or 5 fails; with k = 0 none does.
fn offset_pointer(
    at: usize,
    next: usize,
    target: usize,
    source: usize,
    constant: u64,
    values: &mut [u32],
) -> Step
    requires { (target < length values.old) × (source < length values.old) × (constant < 2 ^ 34) }
    ensures { Assigns (offset_failing values.old source constant) at next target (value values.old source + constant - bias)
        values.old result values.new }
{
    if constant == BIAS {
        values[target] = values[source];
        return Step::Go(next);
    }
    let base = u64::from(values[source]);
    assign_pointer(at, next, target, base, base + constant, values)
}

// Kind 7: p := q + s of q times i, unless check 4 or 5 fails.
fn index_pointer(
    ends: &[u64],
    at: usize,
    next: usize,
    target: usize,
    source: usize,
    index: usize,
    values: &mut [u32],
) -> Step
    requires { (target < length values.old) × (source < length values.old) × (index < length values.old) × (source < 16) × (length ends.now ≡ 512)
        × ((p : ℕ) → size_in ends.now p ≤ 8) }
    ensures { Assigns (index_failing ends.now values.old source index) at next target
        (indexed (declared_in ends.now) values.old source index) values.old result values.new }
{
    let base = u64::from(values[source]);
    let sum = base + scaled(size_in(ends, source), u64::from(values[index])) + BIAS;
    assign_pointer(at, next, target, base, sum, values)
}

// The whole number p + s of p times i + k, with the bias.
fn address_of(ends: &[u64], values: &[u32], pointer: usize, index: usize, constant: u64) -> u64
    requires { (pointer < 16) × (length ends.now ≡ 512) × (size_in ends.now pointer ≤ 8) × (constant < 2 ^ 34) × (index ≤ 16)
        × (16 < length values.now) }
    ensures value { result ≡ address (declared_in ends.now) values.now pointer index constant }
    ensures small { result < 2 ^ 40 }
{
    slot(values, pointer) + scaled(size_in(ends, pointer), slot(values, index)) + constant
}

// Whether a statement of one successor is marked in the place of the second.
fn is_marked(successors: &[u32], at: usize) -> bool
    requires { 2 * at + 1 < length successors.now }
    ensures { result ≡ eqb (get_or successors.now (2 * at + 1) 0) mark }
{
    successors[2 * at + 1] == MARK
}

// Kind 8: x := p[i + k], unless check 2 or 3 fails.
fn load(
    ends: &[u64],
    at: usize,
    next: usize,
    target: usize,
    pointer: usize,
    index: usize,
    constant: u64,
    values: &mut [u32],
    cells: &[u32],
    known: bool,
) -> Step
    requires accessible { Accessible ends.now target pointer index constant (load_failing (declared_in ends.now) values.old pointer
        (address (declared_in ends.now) values.old pointer index constant)) values.old cells.now }
    requires constant_value { known ≡ true → load_failing (declared_in ends.now) values.old pointer (address (declared_in ends.now) values.old pointer index constant)
        ≡ none }
    ensures { Assigns (load_failing (declared_in ends.now) values.old pointer
        (address (declared_in ends.now) values.old pointer index constant)) at next target (get_or cells.now
        (address (declared_in ends.now) values.old pointer index constant - bias) 0) values.old result values.new }
{
    let address = address_of(ends, values, pointer, index, constant);
    let said = check_load(ends, values, at, next, pointer, address, known);
    match said {
        Step::Go(_) => {
            let place = (address - BIAS) as usize;
            values[target] = cells[place];
            said
        }
        Step::Stop(_) | Step::Call => said,
    }
}

// Kind 9: p[i + k] := x, unless check 2, 3 or 6 fails.
fn store(
    ends: &[u64],
    at: usize,
    next: usize,
    pointer: usize,
    index: usize,
    constant: u64,
    source: usize,
    values: &[u32],
    cells: &mut [u32],
    known: bool,
) -> Step
    requires accessible { Accessible ends.now source pointer index constant (store_failing (declared_in ends.now) values.now pointer
        (address (declared_in ends.now) values.now pointer index constant) (value values.now source)) values.now cells.old }
    requires source_value { known ≡ true → store_failing (declared_in ends.now) values.now pointer (address (declared_in ends.now) values.now pointer index constant)
        (value values.now source) ≡ none }
    ensures { Assigns (store_failing (declared_in ends.now) values.now pointer (address (declared_in ends.now)
        values.now pointer index constant) (value values.now source)) at next (address (declared_in ends.now)
        values.now pointer index constant - bias) (value values.now source) cells.old result cells.new }
{
    let address = address_of(ends, values, pointer, index, constant);
    let number = slot(values, source);
    let said = check_store(ends, values, at, next, pointer, address, number, known);
    match said {
        Step::Go(_) => {
            let place = (address - BIAS) as usize;
            cells[place] = values[source];
            said
        }
        Step::Stop(_) | Step::Call => said,
    }
}

// Kind 14: the six numbers of the row become those of the pointer. A loop: the library has no `copy_within`.
fn declare(ends: &mut [u64], next: usize, pointer: usize, row: usize) -> Step
    requires { (pointer < 16) × (row < 64) × (length ends.old ≡ 512) }
    ensures { (result ≡ Go next) × (ends.new ≡ copied 6 pointer row ends.old) }
{
    for j in 0..6 {
        ends[6 * pointer + j] = ends[96 + 6 * row + j];
    }
    Step::Go(next)
}

// Kinds 1 to 10 and 14.
pub(crate) fn advance_simple(
    ends: &mut [u64],
    directory: &[u32],
    successors: &[u32],
    at: usize,
    next: usize,
    s: Simple,
    values: &mut [u32],
    cells: &mut [u32],
) -> Step
    requires operable { Operable ends.old directory.now s values.old cells.old }
    requires at_in_bounds { (2 * at + 1 < length successors.now) × (Marked successors.now at → failing (declared_in ends.old) values.old s ≡ none) }
    ensures { Moves (simple_move ends.old directory.now s at next values.old cells.old) result ends.new
        values.new cells.new }
{
    match s {
        Simple::Literal { target, value } => {
            values[target] = value as u32;
            Step::Go(next)
        }
        Simple::AddConstant {
            target,
            source,
            constant,
        } => {
            values[target] = add_constant(values[source], constant);
            Step::Go(next)
        }
        Simple::Arithmetic {
            target,
            left,
            right,
            operation,
        } => {
            values[target] = combine(operation, values[left], values[right]);
            Step::Go(next)
        }
        Simple::Null { target } => {
            values[target] = 0;
            Step::Go(next)
        }
        Simple::Address { target, object } => {
            values[target] = directory[2 * object];
            Step::Go(next)
        }
        Simple::PointerOffset {
            target,
            source,
            constant,
        } => offset_pointer(at, next, target, source, constant, values),
        Simple::PointerIndex {
            target,
            source,
            index,
        } => index_pointer(ends, at, next, target, source, index, values),
        Simple::Load {
            target,
            pointer,
            index,
            constant,
        } => load(
            ends,
            at,
            next,
            target,
            pointer,
            index,
            constant,
            values,
            cells,
            is_marked(successors, at),
        ),
        Simple::Store {
            pointer,
            index,
            constant,
            source,
        } => store(
            ends,
            at,
            next,
            pointer,
            index,
            constant,
            source,
            values,
            cells,
            is_marked(successors, at),
        ),
        Simple::Check { condition } => check_condition(values, at, next, condition),
        Simple::Declare { pointer, row } => declare(ends, next, pointer, row),
    }
}
