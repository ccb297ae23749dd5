// The fact store. A fact is x <= y + k over two of 16 variables and zero, which has number 16. A fact set keeps the least sum of the chains from
// each of the 17 to each other one (a difference-bound matrix, closed under shortest paths) and a mark for facts that contradict.
// A sum s is kept as the natural number s + 2^33. Nobody outside this crate reads the rows.
#![tactic(auto)]

mod rows; // rows.rt: the sums from one variable, or from zero, to each

ghost use Rattle.std.specs.Prelude.{◌≡◌, false, ◌+◌, ◌≤◌, get_or, length};
ghost use Rattle.facts.specs.Words.{loaded, Saved};
ghost use Rattle.facts.specs.Store.{contradictory, least_sum, new_set, changed, added, dropped, shifted, joined};

use changes::{Change, Fact, adding, no_fact, ranging, shifting};
use rows::Row;
use std::array;
use sums::MAX_VALUE;

#[derive(Clone, Copy)]
pub struct FactSet {
    rows: [Row; 17],
    contradiction: bool,
}

impl FactSet {
    // What is always known: 0 <= v <= 4,294,967,295 of each variable.
    pub fn new() -> FactSet
        ensures { result ≡ new_set }
    {
        // A loop: by `array::from_fn` it takes 2.4 times the instructions.
        let blank = Row { sums: [0; 17] };
        let mut next = FactSet {
            rows: [blank; 17],
            contradiction: false,
        };
        for i in 0..17 {
            next.rows[i] = rows::new_row(i);
        }
        next
    }

    // The facts contradict: some chain from x to x has a sum below zero.
    pub fn contradicts(self) -> bool
        ensures { result ≡ contradictory self }
    {
        let mark = self.contradiction;
        mark
    }

    // The least sum of the chains from x to y; of anything but a variable or zero, no bound at all.
    pub fn sum(self, x: usize, y: usize) -> u64
        ensures { result ≡ least_sum self x y }
    {
        if 16 < x {
            return sums::UNBOUNDED;
        }
        if 16 < y {
            return sums::UNBOUNDED;
        }
        let row = self.rows[x];
        row.sums[y]
    }

    // The facts after a change: the target anew, then the three facts besides; one that is shown already changes nothing. One function with one exit: a set
    // that passes a function's boundary is copied. The sums are changed in an array of arrays, where one sum is read and stored with no copy of its row.
    pub fn after(self, change: Change) -> FactSet
        ensures { result ≡ changed self change }
    {
        let target = change.target;
        let base = change.base;
        let mut mark = self.contradiction;
        let mut sums = [[0; 17]; 17];
        for i in 0..17 {
            sums[i] = rows::sums_of(self.rows[i]);
        }
        if target < 16 {
            if base < 17 {
                let own = rows::own_sums(sums[base], target, change.up);
                for i in 0..17 {
                    sums[i][target] = sums::concat(sums[i][base], change.down);
                }
                sums[target] = own;
            }
        }
        let facts = change.facts;
        for n in 0..3 {
            let fact = facts[n];
            let x = fact.x;
            let y = fact.y;
            let k = fact.k;
            if x < 17 {
                if y < 17 {
                    if !mark {
                        if k < sums[x][y] {
                            if sums::concat(sums[y][x], k) < sums::BIAS {
                                mark = true;
                            } else {
                                let through = sums[y];
                                let plain = rows::all_plain(through);
                                for i in 0..17 {
                                    let start = sums::concat(sums[i][x], k);
                                    if start < sums[i][y] {
                                        sums[i] = rows::lowered_sums(
                                            sums[i], start, through, plain,
                                        );
                                    }
                                }
                            }
                        }
                    }
                }
            }
        }
        let blank = Row { sums: [0; 17] };
        let mut next = FactSet {
            rows: [blank; 17],
            contradiction: mark,
        };
        for i in 0..17 {
            next.rows[i] = rows::row_of(sums[i]);
        }
        next
    }

    // With x <= y + k besides.
    pub fn add(self, x: usize, y: usize, k: u64) -> FactSet
        ensures { result ≡ added self x y k }
    {
        self.after(adding(Fact { x, y, k }, no_fact()))
    }

    // Without x: what is shown of the others, and what is always known of x.
    pub fn drop(self, x: usize) -> FactSet
        ensures { result ≡ dropped self x }
    {
        self.after(ranging(x, 0, MAX_VALUE))
    }

    // Each fact of x moved with x, which is raised by k; and what is always known of the new x.
    pub fn shift(self, x: usize, k: u64) -> FactSet
        ensures { result ≡ shifted self x k }
    {
        if 15 < x {
            return self;
        }
        self.after(shifting(x, k, no_fact()))
    }

    // What both sides show. `pointers` tells the variables that are pointers: a fact relates a pointer and an integer only through zero.
    pub fn join(self, other: FactSet, pointers: [bool; 17]) -> FactSet
        ensures { result ≡ joined (λ n. get_or pointers n false) self other }
    {
        if self.contradiction {
            return other;
        }
        if other.contradiction {
            return self;
        }
        self.join_both(other, pointers)
    }

    // The same where neither side contradicts: apart, so that the sides are copied only where each sum is asked for.
    fn join_both(self, other: FactSet, pointers: [bool; 17]) -> FactSet
        requires { (contradictory self ≡ false) × (contradictory other ≡ false) }
        ensures { result ≡ joined (λ n. get_or pointers n false) self other }
    {
        let zero = rows::greatest_row(self.rows[16], other.rows[16]);
        let mut next = self;
        for i in 0..16 {
            let row = rows::greatest_row(self.rows[i], other.rows[i]);
            next.rows[i] = rows::through_zero(row, pointers, pointers[i], zero);
        }
        next.rows[16] = zero;
        next
    }

    // The set in the 290 words from `at` on: 17 rows of 17 sums, and 1 where the facts contradict.
    pub fn load(words: &[u64], at: usize) -> FactSet
        requires { at + 290 ≤ length words.now }
        ensures { result ≡ loaded words.now at }
    {
        FactSet {
            rows: array::from_fn(|i| rows::load_row(words, at + 17 * i)),
            contradiction: words[at + 289] == 1,
        }
    }

    // The set as words, for `load`.
    pub fn save(self, words: &mut [u64], at: usize)
        requires { at + 290 ≤ length words.old }
        ensures { Saved words.old at self words.new }
    {
        for i in 0..17 {
            rows::save_row(self.rows[i], words, at + 17 * i);
        }
        words[at + 289] = u64::from(self.contradiction);
    }
}
