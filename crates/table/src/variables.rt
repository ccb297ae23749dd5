// The variables of a table, eight words each, read with every test that cause 4 asks for; and the lengths of the objects.
ghost use Rattle.std.specs.Prelude.{◌≡◌, ◌<◌};
ghost use Rattle.table.specs.Variables.{end_words_at, end_right, end_zero, end_of, variable_words_at, integer_record, is_size, size_of};
ghost use Rattle.table.specs.Variables.{pointer_record, variable_of, variable_at, row_words_at, row_of, row_at, object_cells, object_at};

use sums::BIAS;
use words::field::{index_of, is_constant, is_zero, plain};
use words::sections::{Sections, in_limits, kind_is, kind_of, names_index, names_pointer};
use words::word;

// An end of declared bounds: pointer + size times integer + constant. A missing integer is 16, the number that stands for zero. The constant is biased.
#[derive(Clone, Copy, Debug, PartialEq, Eq)]
pub struct End {
    pub pointer: usize,
    pub integer: usize,
    pub constant: u64,
}

#[derive(Clone, Copy, Debug, PartialEq, Eq)]
pub enum Variable {
    Integer,
    Pointer { size: u64, lower: End, upper: End },
}

// A bounds row: the two ends that a kind 14 declares.
#[derive(Clone, Copy)]
pub struct BoundsRow {
    pub lower: End,
    pub upper: End,
}

// The three words of an end.
#[derive(Clone, Copy)]
struct EndWords {
    pointer: u64,
    integer: u64,
    constant: u64,
}

// The eight words of a variable record.
#[derive(Clone, Copy)]
struct VariableWords {
    kind: u64,
    size: u64,
    lower: EndWords,
    upper: EndWords,
}

// The six words of a bounds row.
#[derive(Clone, Copy)]
struct RowWords {
    lower: EndWords,
    upper: EndWords,
}

fn end_words_at(table: &[i32], start: usize) -> EndWords
    requires { start < 65536 }
    ensures { result ≡ end_words_at table.now start }
{
    EndWords {
        pointer: word(table, start),
        integer: word(table, start + 1),
        constant: word(table, start + 2),
    }
}

fn variable_words_at(table: &[i32], start: usize) -> VariableWords
    requires { start < 65000 }
    ensures { result ≡ variable_words_at table.now start }
{
    VariableWords {
        kind: word(table, start),
        size: word(table, start + 1),
        lower: end_words_at(table, start + 2),
        upper: end_words_at(table, start + 5),
    }
}

fn end_right(table: &[i32], sections: Sections, e: EndWords) -> bool
    ensures { result ≡ end_right table.now sections e }
{
    names_pointer(table, sections, e.pointer)
        & names_index(table, sections, e.integer)
        & is_constant(e.constant)
}

fn end_zero(e: EndWords) -> bool
    ensures { result ≡ end_zero e }
{
    is_zero(e.pointer) & is_zero(e.integer) & is_zero(e.constant)
}

fn end_of(e: EndWords) -> End
    ensures { result ≡ end_of e }
{
    End {
        pointer: plain(e.pointer),
        integer: index_of(e.integer),
        constant: e.constant,
    }
}

fn integer_record(w: VariableWords) -> bool
    ensures { result ≡ integer_record w }
{
    is_zero(w.kind) & is_zero(w.size) & end_zero(w.lower) & end_zero(w.upper)
}

// The word of an element size: 0 to 8.
fn is_size(w: u64) -> bool
    ensures { result ≡ is_size w }
{
    (w >= BIAS) & (w <= BIAS + 8)
}

// The element size, 0 for one cell.
fn size_of(w: u64) -> u64
    ensures { result ≡ size_of w }
{
    if w == BIAS {
        return 1;
    }
    plain(w) as u64
}

fn pointer_record(table: &[i32], sections: Sections, w: VariableWords) -> bool
    ensures { result ≡ pointer_record table.now sections w }
{
    kind_is(false, true, true, kind_of(w.kind))
        & is_size(w.size)
        & end_right(table, sections, w.lower)
        & end_right(table, sections, w.upper)
}

fn variable_of(table: &[i32], sections: Sections, w: VariableWords) -> Option<Variable>
    ensures { result ≡ variable_of table.now sections w }
{
    if integer_record(w) {
        return Some(Variable::Integer);
    }
    if pointer_record(table, sections, w) {
        return Some(Variable::Pointer {
            size: size_of(w.size),
            lower: end_of(w.lower),
            upper: end_of(w.upper),
        });
    }
    None
}

fn row_words_at(table: &[i32], start: usize) -> RowWords
    requires { start < 65000 }
    ensures { result ≡ row_words_at table.now start }
{
    RowWords {
        lower: end_words_at(table, start),
        upper: end_words_at(table, start + 3),
    }
}

fn row_of(table: &[i32], sections: Sections, w: RowWords) -> Option<BoundsRow>
    ensures { result ≡ row_of table.now sections w }
{
    if end_right(table, sections, w.lower) & end_right(table, sections, w.upper) {
        return Some(BoundsRow {
            lower: end_of(w.lower),
            upper: end_of(w.upper),
        });
    }
    None
}

// The row of a number; a row that the sections do not have is unread.
pub fn read_row(table: &[i32], sections: Sections, r: usize) -> Option<BoundsRow>
    ensures { result ≡ row_at table.now sections r }
{
    if in_limits(sections) & (r < sections.rows) {
        let start = sections.start
            + sections.objects
            + 8 * sections.variables
            + 7 * sections.statements
            + 6 * r;
        return row_of(table, sections, row_words_at(table, start));
    }
    None
}

// The record of a variable; a variable that the sections do not have is unread.
pub fn read_variable(table: &[i32], sections: Sections, v: usize) -> Option<Variable>
    ensures { result ≡ variable_at table.now sections v }
{
    if in_limits(sections) & (v < sections.variables) {
        return variable_of(
            table,
            sections,
            variable_words_at(table, sections.start + sections.objects + 8 * v),
        );
    }
    None
}

// The length that the word of an object gives, its sign removed.
fn object_cells(w: u64) -> u64
    ensures { result ≡ object_cells w }
{
    if w < BIAS {
        return BIAS - w;
    }
    plain(w) as u64
}

// The length of an object; 0 where there is no such object.
pub fn read_object(table: &[i32], sections: Sections, o: usize) -> u64
    ensures { result ≡ object_at table.now sections o }
{
    if in_limits(sections) & (o < sections.objects) {
        return object_cells(word(table, sections.start + o));
    }
    0
}
