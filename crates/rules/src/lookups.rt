// What is declared of a variable or an object by its number; of a number that has none, what the definitions say.
ghost use Rattle.std.specs.Prelude.{◌≡◌, false, get_or};
ghost use Rattle.rules.specs.BoundsRules.{nothing_known};

use crate::{Bounds, NOTHING_KNOWN};

// What stands at an index; `none` past the end.
pub fn element_or<T: Copy, const N: usize>(each: [T; N], i: usize, none: T) -> T
    ensures { result ≡ get_or each i none }
{
    if i < N { each[i] } else { none }
}

// v is a pointer.
pub fn is_pointer(pointers: [bool; 17], v: usize) -> bool
    ensures { result ≡ get_or pointers v false }
{
    element_or(pointers, v, false)
}

// v is a pointer of kind 2.
pub fn is_string(strings: [bool; 17], v: usize) -> bool
    ensures { result ≡ get_or strings v false }
{
    element_or(strings, v, false)
}

// o is a terminated object.
pub fn is_terminated(terminated: [bool; 16], o: usize) -> bool
    ensures { result ≡ get_or terminated o false }
{
    element_or(terminated, o, false)
}

// The bounds of a pointer.
pub fn bounds_at(each: [Bounds; 16], p: usize) -> Bounds
    ensures { result ≡ get_or each p nothing_known }
{
    element_or(each, p, NOTHING_KNOWN)
}

// The length of an object.
pub fn length_at(lengths: [u64; 16], o: usize) -> u64
    ensures { result ≡ get_or lengths o 0 }
{
    element_or(lengths, o, 0)
}

// The element size of a variable.
pub fn size_at(sizes: [u64; 16], v: usize) -> u64
    ensures { result ≡ get_or sizes v 1 }
{
    element_or(sizes, v, 1)
}

// The rows in force: for each pointer 0, its own bound, or the row's number and 1.
#[derive(Clone, Copy, Debug, PartialEq, Eq)]
pub struct Rows {
    pub each: [usize; 16],
}
