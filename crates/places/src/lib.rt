// Places: the walk's state before a top-level statement, kept as words in a lent store (point 13).
// The first word of a store is the number of places kept; a place is 307 words: its position, its fact set, the rows in force.
#![tactic(auto)]

ghost use Rattle.std.specs.Prelude.{◌≡◌, ◌+◌, ◌*◌, ◌<◌, ◌≤◌, [], ◌∷◌, ◌++◌, length, take};
ghost use Rattle.declared.specs.Force.{state_of};
ghost use Rattle.places.specs.Places.{rows_at, state_at, places, place_of, is_next, kept_at, up_to};
ghost use Rattle.edits.specs.TopLevel.{is_in};
ghost use Rattle.places.specs.Positions.{capacity, place_count, position_at};
ghost use Rattle.places.specs.StoreLaws.{Restored, RowsSaved};

use arrays::lowest;
use facts::FactSet;
use rules::lookups::Rows;
use std::array;

// How many places there is room for.
pub fn capacity(store: &[u64]) -> usize
    ensures { result ≡ capacity store.now }
{
    if store.len() == 0 {
        return 0;
    }
    (store.len() - 1) / 307
}

// How many places are kept.
pub fn place_count(store: &[u64]) -> usize
    ensures { result ≡ place_count store.now }
{
    let room = capacity(store);
    if store.len() == 0 {
        return 0;
    }
    let kept = store[0] as usize;
    if kept < room { kept } else { room }
}

pub fn position_at(store: &[u64], j: usize) -> usize
    requires { 1 + 307 * j + 307 ≤ length store.now }
    ensures { result ≡ position_at store.now j }
{
    store[1 + 307 * j] as usize
}

pub fn rows_at(store: &[u64], j: usize) -> Rows
    requires { 1 + 307 * j + 307 ≤ length store.now }
    ensures { result.each ≡ rows_at store.now j }
{
    let start = 1 + 307 * j + 291;
    Rows {
        each: array::from_fn(|i| store[start + i] as usize),
    }
}

pub fn facts_at(store: &[u64], j: usize) -> FactSet
    requires { 1 + 307 * j + 307 ≤ length store.now }
    ensures { result ≡ (state_at store.now j).facts }
{
    FactSet::load(store, 1 + 307 * j + 1)
}

// How many places, from the first on, are at or before `p`.
pub fn up_to(store: &[u64], p: usize) -> usize
    ensures { result ≡ up_to (places store.now) p }
{
    lowest(place_count(store), |j| position_at(store, j) > p)
}

// Keeps the first `n` places.
pub fn keep_first(store: &mut [u64], n: usize)
    requires { n ≤ place_count store.old }
    ensures { Restored store.old (take n (places store.old)) store.new }
{
    if store.len() > 0 {
        store[0] = n as u64;
    }
}

// The rows in force, as 16 words from `at` on.
fn save_rows(rows: Rows, store: &mut [u64], at: usize)
    requires { at + 16 ≤ length store.old }
    ensures { RowsSaved store.old at rows.each store.new }
{
    for i in 0..16 {
        store[at + i] = rows.each[i] as u64;
    }
}

// One more place.
fn push(store: &mut [u64], at: usize, facts: FactSet, rows: Rows)
    requires { place_count store.old < capacity store.old }
    ensures { Restored store.old (places store.old ++ (place_of at (state_of facts rows.each) ∷ [])) store.new }
{
    let count = place_count(store);
    let start = 1 + 307 * count;
    store[start] = at as u64;
    facts.save(store, start + 1);
    save_rows(rows, store, start + 291);
    store[0] = (count + 1) as u64;
}

// The position is one of those named.
pub fn is_named(keep: &[u32], at: usize) -> bool
    ensures { result ≡ is_in keep.now at }
{
    keep.iter().any(|kept| *kept as usize == at)
}

// The position is behind every place that is kept.
fn is_next(store: &[u64], at: usize) -> bool
    ensures { result ≡ is_next (places store.now) at }
{
    let count = place_count(store);
    if count == 0 {
        return true;
    }
    position_at(store, count - 1) < at
}

// Keeps the place before the statement at `at`, where it is named, not kept already, and fits.
pub fn keep_place(store: &mut [u64], keep: &[u32], at: usize, facts: FactSet, rows: Rows)
    ensures { Restored store.old
        (kept_at keep.now (capacity store.old) (places store.old) at (state_of facts rows.each)) store.new }
{
    if !is_named(keep, at) {
        return;
    }
    if !is_next(store, at) {
        return;
    }
    if place_count(store) >= capacity(store) {
        return;
    }
    push(store, at, facts, rows);
}
