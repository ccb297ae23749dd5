// The rows of a fact set: the sums from one variable, or from zero, to each.
ghost use Rattle.std.specs.Prelude.{◌≡◌, true, false, ◌+◌, ◌≤◌, get_or, length};
ghost use Rattle.sums.specs.Sums.{concatenated};
ghost use Rattle.facts.specs.Store.{new_sum, new_row, own_row, row_with};
ghost use Rattle.facts.specs.Words.{loaded_row, RowSaved};
ghost use Rattle.facts.specs.Rows.{is_plain, AllPlain, shortened_row, greatest_row, through_zero};

use std::array;
use sums::{BIAS, LIMIT, MAX_SUM, concat};

#[derive(Clone, Copy)]
pub struct Row {
    pub sums: [u64; 17],
}

fn new_sum(i: usize, j: usize) -> u64
    ensures { result ≡ new_sum i j }
{
    if i == j {
        return BIAS;
    }
    if i == 16 {
        return BIAS;
    }
    MAX_SUM
}

pub(crate) fn new_row(i: usize) -> Row
    ensures { result ≡ new_row i }
{
    Row {
        sums: array::from_fn(|j| new_sum(i, j)),
    }
}

// The sums of a row, and a row of sums. Sixteen and the last one: a copy of 136 bytes is a call, one of 128 is not.
pub(crate) fn sums_of(row: Row) -> [u64; 17]
    ensures { (row_with result ≡ row) × (length result ≡ 17) }
{
    let mut next = [0; 17];
    for j in 0..16 {
        next[j] = row.sums[j];
    }
    next[16] = row.sums[16];
    next
}

pub(crate) fn row_of(sums: [u64; 17]) -> Row
    ensures { result ≡ row_with sums }
{
    let mut next = Row { sums: [0; 17] };
    for j in 0..16 {
        next.sums[j] = sums[j];
    }
    next.sums[16] = sums[16];
    next
}

// Two plain sums are added with no test. All sums of a set that arises are plain, but no method asks that of its caller.
fn is_plain(sum: u64) -> bool
    ensures { result ≡ is_plain sum }
{
    (4294967296 <= sum) & (sum < LIMIT)
}

pub(crate) fn all_plain(sums: [u64; 17]) -> bool
    ensures { result ≡ true → AllPlain sums 17 }
{
    let mut plain = true;
    for j in 0..17 {
        plain = plain & is_plain(sums[j]);
    }
    plain
}

fn concat_plain(a: u64, b: u64) -> u64
    requires { (is_plain a ≡ true) × (is_plain b ≡ true) }
    ensures { result ≡ concatenated a b }
{
    a + b - BIAS
}

fn lowered_plain(row: [u64; 17], start: u64, through: [u64; 17]) -> [u64; 17]
    requires { (is_plain start ≡ true) × AllPlain through 17 }
    ensures { row_with result ≡ shortened_row (row_with row) start (row_with through) }
{
    let mut next = row;
    for j in 0..17 {
        next[j] = row[j].min(concat_plain(start, through[j]));
    }
    next
}

// The row with every sum lowered to the chain that begins with the sum `start` and goes on as `through`; `plain` tells that all sums of `through` are.
pub(crate) fn lowered_sums(row: [u64; 17], start: u64, through: [u64; 17], plain: bool) -> [u64; 17]
    requires { plain ≡ true → AllPlain through 17 }
    ensures { row_with result ≡ shortened_row (row_with row) start (row_with through) }
{
    if plain {
        if is_plain(start) {
            return lowered_plain(row, start, through);
        }
    }
    let mut next = row;
    for j in 0..17 {
        next[j] = row[j].min(concat(start, through[j]));
    }
    next
}

// The row of x itself where x is at most `up` above the variable whose row is `base`.
pub(crate) fn own_sums(base: [u64; 17], x: usize, up: u64) -> [u64; 17]
    ensures { row_with result ≡ own_row (row_with base) x up }
{
    let mut next = base;
    for j in 0..17 {
        next[j] = if j == x { BIAS } else { concat(up, base[j]) };
    }
    next
}

// The greater of each two sums.
pub(crate) fn greatest_row(a: Row, b: Row) -> Row
    ensures { result ≡ greatest_row a b }
{
    let mut next = a;
    for j in 0..17 {
        next.sums[j] = a.sums[j].max(b.sums[j]);
    }
    next
}

// The row of a variable that is a pointer or not (`pointer`): its sum to each variable of the other kind is that of the chain through zero, whose row is
// `zero`.
pub(crate) fn through_zero(row: Row, pointers: [bool; 17], pointer: bool, zero: Row) -> Row
    ensures { result ≡ through_zero (λ n. get_or pointers n false) pointer row «zero» }
{
    let mut next = row;
    let to = row.sums[16];
    for j in 0..16 {
        if pointers[j] != pointer {
            next.sums[j] = concat(to, zero.sums[j]);
        }
    }
    next
}

// The row in the 17 words from `at` on.
pub(crate) fn load_row(words: &[u64], at: usize) -> Row
    requires { at + 17 ≤ length words.now }
    ensures { result ≡ loaded_row words.now at }
{
    Row {
        sums: array::from_fn(|j| words[at + j]),
    }
}

pub(crate) fn save_row(row: Row, words: &mut [u64], at: usize)
    requires { at + 17 ≤ length words.old }
    ensures { RowSaved words.old at row words.new }
{
    words[at..at + 17].copy_from_slice(&row.sums);
}
