// What a statement or a condition does to the facts, as a value: made from the statement alone, and carried out by the fact store.
// A fact is x <= y + k over two of 16 variables and zero, which has number 16; each sum is kept with its bias.
#![tactic(auto)]

ghost use Rattle.std.specs.Prelude.{◌≡◌};
ghost use Rattle.changes.specs.Changes.{no_fact, adding, ranging, shifting, equating};

use sums::{BIAS, MAX_SUM, ZERO, negate};

// A fact x <= y + k; where x or y is neither a variable nor zero it says nothing.
#[derive(Clone, Copy, Debug, PartialEq, Eq)]
pub struct Fact {
    pub x: usize,
    pub y: usize,
    pub k: u64,
}

// The variable `target` anew, `base` - `down` <= `target` <= `base` + `up`, where it is one; then three facts besides.
#[derive(Clone, Copy)]
pub struct Change {
    pub target: usize,
    pub base: usize,
    pub up: u64,
    pub down: u64,
    pub facts: [Fact; 3],
}

// What a change may have to know, where it is asked: whether x <= y + `there` is shown, and whether y <= x + `back` is. Where they are chained, the second
// matters only if the first is shown.
#[derive(Clone, Copy)]
pub struct Questions {
    pub asked: bool,
    pub chained: bool,
    pub x: usize,
    pub y: usize,
    pub there: u64,
    pub back: u64,
}

#[derive(Clone, Copy)]
pub struct Answers {
    pub there: bool,
    pub back: bool,
}

// Neither a variable nor zero.
const NONE: usize = 17;

// A fact that says nothing.
pub fn no_fact() -> Fact
    ensures { result ≡ no_fact }
{
    Fact {
        x: NONE,
        y: NONE,
        k: 0,
    }
}

// No variable anew, and two facts besides.
pub fn adding(first: Fact, second: Fact) -> Change
    ensures { result ≡ adding first second }
{
    let facts = [first, second, no_fact()];
    Change {
        target: NONE,
        base: NONE,
        up: 0,
        down: 0,
        facts,
    }
}

// Drops x; then low <= x <= high.
pub fn ranging(x: usize, low: u32, high: u32) -> Change
    ensures { result ≡ ranging x low high }
{
    let none = no_fact();
    Change {
        target: x,
        base: ZERO,
        up: BIAS + u64::from(high),
        down: BIAS - u64::from(low),
        facts: [none, none, none],
    }
}

// Shifts x by k; then a third fact besides.
pub fn shifting(x: usize, k: u64, third: Fact) -> Change
    ensures { result ≡ shifting x k third }
{
    let least = Fact {
        x: ZERO,
        y: x,
        k: BIAS,
    };
    let greatest = Fact {
        x,
        y: ZERO,
        k: MAX_SUM,
    };
    Change {
        target: x,
        base: x,
        up: k,
        down: negate(k),
        facts: [least, greatest, third],
    }
}

// Drops x; then x = y + k, and a third fact besides.
pub fn equating(x: usize, y: usize, k: u64, third: Fact) -> Change
    ensures { result ≡ equating x y k third }
{
    let at_most = Fact { x, y, k };
    let at_least = Fact {
        x: y,
        y: x,
        k: negate(k),
    };
    Change {
        target: x,
        base: ZERO,
        up: MAX_SUM,
        down: BIAS,
        facts: [at_most, at_least, third],
    }
}
