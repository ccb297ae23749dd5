// The rules: the bounds in force, what a statement does to them and to the facts, and the verdict (specs); and what a table declares.
#![tactic(auto)]

mod bound; // bound.rt: one bound that is in force
mod declarations; // declarations.rt: what a table declares
pub mod lookups; // lookups.rt: what stands at an index, past the end what the definitions say; the rows in force

pub use bound::read_bound;
pub use declarations::{
    read_declared, read_environment, read_pointers, read_sizes, read_spans, read_strings,
    upper_limit,
};
use table::variables::End;

// The bounds that are known of a pointer, with the element size they came with: an end's value is pointer + size times integer + constant.
#[derive(Clone, Copy)]
pub struct Bounds {
    pub size: u64,
    pub lower: Option<End>,
    pub upper: Option<End>,
}

// Nothing is known of the bounds.
pub const NOTHING_KNOWN: Bounds = Bounds {
    size: 1,
    lower: None,
    upper: None,
};

// What a table declares, read once: which variables are pointers, which of them are of kind 2, their element sizes (1 for an integer), the declared bounds
// (unknown for an integer), the lengths of the objects, which of them are terminated, the upper limits of bounds in them, the bounds rows (unknown where
// there is none; the size of a row's bounds is that of the pointer it is in force for).
#[derive(Clone, Copy)]
pub struct Environment {
    pub pointers: [bool; 17],
    pub strings: [bool; 17],
    pub sizes: [u64; 16],
    pub declared: [Bounds; 16],
    pub lengths: [u64; 16],
    pub terminated: [bool; 16],
    pub spans: [u64; 16],
    pub rows: [Bounds; 64],
}

// What a statement does to known bounds.
#[derive(Clone, Copy)]
pub enum Effect {
    Keep,
    Forget {
        target: usize,
    },
    Shift {
        target: usize,
        constant: u64,
    },
    Copy {
        target: usize,
        source: usize,
    },
    Object {
        target: usize,
        size: u64,
        length: u64,
    },
}

// Which routine of a set is refused, and why.
#[derive(Clone, Copy)]
pub struct SetRefusal {
    pub routine: usize,
    pub refusal: answers::refusals::Refusal,
}
