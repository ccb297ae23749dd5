// A condition, which stands in the first four fields of a record: left variable, relation, form, right; and its negation.
#![tactic(auto)]

ghost use Rattle.std.specs.Prelude.{◌≡◌};
ghost use Rattle.conditions.specs.Conditions.{same_kind, beside_literal, condition_right, right_of, offset_of, condition_of};
ghost use Rattle.conditions.specs.Conditions.{negation, negated_of};

use sums::BIAS;
use words::Fields;
use words::field::{is_below, is_zero, literal_value, plain};
use words::sections::{Sections, names_array, names_integer, names_pointer, names_string};

// left RELATION right + offset. Form 0: right is a variable, offset 0. Form 1: right is 16 (zero), offset the literal.
#[derive(Clone, Copy, Debug, PartialEq, Eq)]
pub struct Condition {
    pub left: usize,
    pub relation: usize,
    pub right: usize,
    pub offset: u64,
}

// Form 0: two variables of one kind. Integers come first, as most are, so that two words are read of them and not six.
fn same_kind(table: &[i32], sections: Sections, v: u64, w: u64) -> bool
    ensures { result ≡ same_kind table.now sections v w }
{
    if names_integer(table, sections, v) & names_integer(table, sections, w) {
        return true;
    }
    (names_array(table, sections, v) & names_array(table, sections, w))
        | (names_string(table, sections, v) & names_string(table, sections, w))
}

// Form 1: a literal beside an integer, only 0 beside a pointer.
fn beside_literal(table: &[i32], sections: Sections, v: u64, w: u64) -> bool
    ensures { result ≡ beside_literal table.now sections v w }
{
    names_integer(table, sections, v) | (names_pointer(table, sections, v) & is_zero(w))
}

// A condition stands in the first four fields: left, relation, form, right. Only what the form asks for is read.
pub fn condition_right(table: &[i32], sections: Sections, f: Fields) -> bool
    ensures { result ≡ condition_right table.now sections f }
{
    if is_zero(f.third) {
        return is_below(6, f.second) & same_kind(table, sections, f.first, f.fourth);
    }
    is_below(6, f.second)
        & ((f.third == BIAS + 1) & beside_literal(table, sections, f.first, f.fourth))
}

fn right_of(form: u64, w: u64) -> usize
    ensures { result ≡ right_of form w }
{
    if is_zero(form) {
        return plain(w);
    }
    16
}

fn offset_of(form: u64, w: u64) -> u64
    ensures { result ≡ offset_of form w }
{
    if is_zero(form) {
        return 0;
    }
    literal_value(w)
}

pub fn condition_of(f: Fields) -> Condition
    ensures { result ≡ condition_of f }
{
    Condition {
        left: plain(f.first),
        relation: plain(f.second),
        right: right_of(f.third, f.fourth),
        offset: offset_of(f.third, f.fourth),
    }
}

// An even relation goes up by one, an odd one down.
fn negation(relation: usize) -> usize
    ensures { result ≡ negation relation }
{
    if relation % 2 == 0 {
        return relation + 1;
    }
    relation - 1
}

pub fn negated(c: Condition) -> Condition
    ensures { result ≡ negated_of c }
{
    Condition {
        left: c.left,
        relation: negation(c.relation),
        right: c.right,
        offset: c.offset,
    }
}
