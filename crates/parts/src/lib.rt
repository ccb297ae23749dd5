// Where each routine's part lies in a lent slice: the parts one after the other, with a slice of lengths, `kinds` of them a routine.
#![tactic(auto)]

ghost use Rattle.std.specs.Prelude.{◌≡◌, ◌^◌, ◌<◌, ◌≤◌, get_or};
ghost use Rattle.parts.specs.Parts.{length_at, start_at, span_of};

// A part of a lent slice: the elements start to end - 1.
#[derive(Clone, Copy, Debug, PartialEq, Eq)]
pub struct Span {
    pub start: usize,
    pub end: usize,
}

// The length at an index; 0 where there is none.
fn length_at(lengths: &[u32], i: usize) -> usize
    ensures { (result ≡ get_or lengths.now i 0) × (result < 2 ^ 32) }
{
    if i < lengths.len() {
        return lengths[i] as usize;
    }
    0
}

// The length of routine r's part of this kind.
fn length_of(lengths: &[u32], kinds: usize, kind: usize, r: usize) -> usize
    requires { (kinds ≤ 5) × (kind < 5) × (r < 8) }
    ensures value { result ≡ length_at lengths.now kinds kind r }
    ensures small { result < 2 ^ 32 }
{
    length_at(lengths, kinds * r + kind)
}

fn start_of(lengths: &[u32], kinds: usize, kind: usize, r: usize) -> usize
    requires { (kinds ≤ 5) × (kind < 5) × (r ≤ 8) }
    ensures value { result ≡ start_at lengths.now kinds kind r }
    ensures small { result ≤ 2 ^ 36 }
{
    let mut start = 0;
    for i in 0..r {
        start += length_of(lengths, kinds, kind, i);
    }
    start
}

// Routine r's part of this kind, of a slice of `length` elements.
pub fn span_of(lengths: &[u32], kinds: usize, kind: usize, r: usize, length: usize) -> Span
    requires { (kinds ≤ 5) × (kind < 5) × (r < 8) }
    ensures value { result ≡ span_of lengths.now kinds kind r length }
    ensures within { (result.start ≤ result.end) × (result.end ≤ length) × (result.start ≤ 2 ^ 36) }
{
    let start = start_of(lengths, kinds, kind, r);
    let end = start + length_of(lengths, kinds, kind, r);
    Span {
        start: start.min(length),
        end: end.min(length),
    }
}
