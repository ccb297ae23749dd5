// The words of a table as natural numbers, 2^33 more than the signed words. Of what reads a table only `biased` sees a signed word; everything else works on
// natural numbers.
#![tactic(auto)]

pub mod field; // field.rt: one field of a record: the number, index or literal that its word is, and what it may be
pub mod sections; // sections.rt: the sections of a table, and what a field of a record names: a variable of some kind, an index
pub mod signed; // signed.rt: words as they stand in a table, for those that make tables

ghost use Rattle.std.specs.Prelude.{◌≡◌, ◌+◌, ◌%◌, ◌<◌, ◌≤◌, length};
ghost use Rattle.words.specs.Words.{biased, word, fields_at};

use sums::BIAS;

// The seven words of a statement record.
#[derive(Clone, Copy, Debug, PartialEq, Eq)]
pub struct Fields {
    pub kind: u64,
    pub first: u64,
    pub second: u64,
    pub third: u64,
    pub fourth: u64,
    pub fifth: u64,
    pub sixth: u64,
}

fn biased(w: i32) -> u64
    ensures { result ≡ biased w }
{
    (i64::from(w) + 8589934592) as u64
}

// The word at an index of the table.
pub fn word_within(table: &[i32], i: usize) -> u64
    requires { i < length table.now }
    ensures { result ≡ word table.now i }
{
    biased(table[i])
}

// The word at an index; past the table's end the word 0.
pub fn word(table: &[i32], i: usize) -> u64
    ensures { result ≡ word table.now i }
{
    if i < table.len() {
        return word_within(table, i);
    }
    BIAS
}

// The seven words from `start` on, of a record that lies in the table.
fn fields_within(table: &[i32], start: usize) -> Fields
    requires { (start < 65536) × (start + 7 ≤ length table.now) }
    ensures { result ≡ fields_at table.now start }
{
    Fields {
        kind: word_within(table, start),
        first: word_within(table, start + 1),
        second: word_within(table, start + 2),
        third: word_within(table, start + 3),
        fourth: word_within(table, start + 4),
        fifth: word_within(table, start + 5),
        sixth: word_within(table, start + 6),
    }
}

// The seven words from `start` on: one test for all of them where the record lies in the table. No record starts at 65,536 or later; so that no index wraps,
// `start` is taken modulo 65,536.
pub fn fields_at(table: &[i32], start: usize) -> Fields
    ensures { result ≡ fields_at table.now (start % 65536) }
{
    let at = start % 65536;
    if at + 7 <= table.len() {
        return fields_within(table, at);
    }
    Fields {
        kind: word(table, at),
        first: word(table, at + 1),
        second: word(table, at + 2),
        third: word(table, at + 3),
        fourth: word(table, at + 4),
        fifth: word(table, at + 5),
        sixth: word(table, at + 6),
    }
}
