// Causes 10 to 12 and 16: the memory directory, the lengths of values and origins, the entry values, and the last cells of terminated objects.
ghost use Rattle.std.specs.Prelude.{◌≡◌, ◌*◌, ◌<◌, cond, [], ◌∷◌, ltb, length};
ghost use Rattle.answers.specs.declared.refusals.Refusal.TheVariants.{DirectoryPair, EntryValue, LastCell};
ghost use Rattle.rules.specs.Ranges.{Sized};
ghost use Rattle.entry.specs.Entry.{memory_right, end_before, pair_right, lengths_right, entry_right, last_right, failures, entry_refusals};
ghost use Rattle.entry.specs.Entered.{entered};

use crate::entry_bounds::bounds_true;
use answers::refusals::Refusal;
use arrays::lowest;
use machine::value_at;
use rules::lookups::{is_pointer, is_terminated, length_at};
use rules::{Environment, upper_limit};
use words::sections::Sections;

// The most cells that may be lent.
const MAX_CELLS: usize = 16777216;

fn memory_right(sections: Sections, directory: &[u32], cells: &[u32]) -> bool
    ensures { result ≡ memory_right sections directory.now cells.now }
{
    if sections.objects > directory.len() {
        return false;
    }
    (cells.len() <= MAX_CELLS) & (directory.len() - sections.objects == sections.objects)
}

// Where the objects before object o end; cell 0 is in no object.
fn end_before(directory: &[u32], o: usize) -> u64
    requires { 2 * o < length directory.now }
    ensures { result ≡ end_before directory.now o }
{
    if o == 0 {
        return 1;
    }
    let pair = 2 * (o - 1);
    value_at(directory, pair) + value_at(directory, pair + 1)
}

fn pair_right(environment: Environment, directory: &[u32], cells: &[u32], o: usize) -> bool
    requires { 2 * o < length directory.now }
    ensures { result ≡ pair_right environment directory.now cells.now o }
{
    let lengths = environment.lengths;
    let low = value_at(directory, 2 * o);
    let length = value_at(directory, 2 * o + 1);
    (end_before(directory, o) <= low)
        & (low + length <= cells.len() as u64)
        & (length == length_at(lengths, o))
}

// What a search below `count` answers: the refusal, where it stopped before.
#[tactic(auto, unfolding(crate::specs::Entered::entered))]
fn answer(found: usize, count: usize, refusal: Refusal) -> Result<(), Refusal>
    ensures { result ≡ entered (cond (ltb found count) (refusal ∷ []) []) }
{
    if found < count {
        return Err(refusal);
    }
    Ok(())
}

// Cause 10: the first pair that is wrong.
fn check_pairs(
    sections: Sections,
    environment: Environment,
    directory: &[u32],
    cells: &[u32],
) -> Result<(), Refusal>
    requires { length directory.now ≡ 2 * sections.objects }
    ensures { result ≡ entered (failures (pair_right environment directory.now cells.now) DirectoryPair sections.objects 0) }
{
    let count = sections.objects;
    let o = lowest(count, |o| !pair_right(environment, directory, cells, o));
    answer(o, count, Refusal::DirectoryPair(o))
}

fn lengths_right(sections: Sections, values: &[u32], origins: &[u32]) -> bool
    ensures { result ≡ lengths_right sections values.now origins.now }
{
    (values.len() == sections.variables) & (origins.len() == sections.variables)
}

// The value and the origin of one variable.
fn entry_right(
    environment: Environment,
    directory: &[u32],
    values: &[u32],
    origins: &[u32],
    v: usize,
) -> bool
    requires { Sized environment }
    ensures { result ≡ entry_right environment directory.now values.now origins.now v }
{
    let pointers = environment.pointers;
    if is_pointer(pointers, v) & (value_at(values, v) != 0) {
        return bounds_true(environment, directory, values, origins, v);
    }
    value_at(origins, v) == 0
}

// Cause 12: the lowest variable whose origin or bounds are untrue.
fn check_values(
    sections: Sections,
    environment: Environment,
    directory: &[u32],
    values: &[u32],
    origins: &[u32],
) -> Result<(), Refusal>
    requires { Sized environment }
    ensures { result ≡ entered
        (failures (entry_right environment directory.now values.now origins.now) EntryValue sections.variables 0) }
{
    let count = sections.variables;
    let v = lowest(
        count,
        |v| !entry_right(environment, directory, values, origins, v),
    );
    answer(v, count, Refusal::EntryValue(v))
}

// The last cell of an object that is terminated is 0.
fn last_right(environment: Environment, directory: &[u32], cells: &[u32], o: usize) -> bool
    requires { 2 * o < length directory.now }
    ensures { result ≡ last_right environment directory.now cells.now o }
{
    let terminated = environment.terminated;
    let high = value_at(directory, 2 * o) + value_at(directory, 2 * o + 1);
    let last = upper_limit(true, high);
    !is_terminated(terminated, o) | (value_at(cells, last as usize) == 0)
}

// Cause 16: the lowest terminated object whose last cell is not 0.
fn check_last(
    sections: Sections,
    environment: Environment,
    directory: &[u32],
    cells: &[u32],
) -> Result<(), Refusal>
    requires { length directory.now ≡ 2 * sections.objects }
    ensures { result ≡ entered (failures (last_right environment directory.now cells.now) LastCell sections.objects 0) }
{
    let count = sections.objects;
    let o = lowest(count, |o| !last_right(environment, directory, cells, o));
    answer(o, count, Refusal::LastCell(o))
}

// Causes 10 to 12 and 16 in their order.
pub fn enter(
    sections: Sections,
    environment: Environment,
    directory: &[u32],
    cells: &[u32],
    values: &[u32],
    origins: &[u32],
) -> Result<(), Refusal>
    requires { Sized environment }
    ensures { result ≡ entered
        (entry_refusals sections environment directory.now cells.now values.now origins.now) }
{
    if !memory_right(sections, directory, cells) {
        return Err(Refusal::MemorySize);
    }
    check_pairs(sections, environment, directory, cells)?;
    if !lengths_right(sections, values, origins) {
        return Err(Refusal::EntryLengths);
    }
    check_values(sections, environment, directory, values, origins)?;
    check_last(sections, environment, directory, cells)
}
