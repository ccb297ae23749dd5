// The sections of a table, and what a field of a record names: a variable of some kind, an index.
ghost use Rattle.std.specs.Prelude.{◌≡◌};
ghost use Rattle.words.specs.Sections.{start_right, in_limits, is_variable, kind_of, kind_at, kind_is, integer_at, pointer_at, array_at, string_at};
ghost use Rattle.words.specs.Sections.{object_terminated, takes_pointer, takes_object, names_integer, names_pointer, names_array, names_string, names_index};

use crate::field::plain;
use crate::word;
use sums::BIAS;

// Where the first section starts (6, or 8 where there is a section of rows), and how many items each section has. The offsets follow: objects at word
// start, variables at start + objects, statements at start + objects + 8 * variables, rows after 7 * statements more.
#[derive(Clone, Copy, Debug, PartialEq, Eq)]
pub struct Sections {
    pub start: usize,
    pub objects: usize,
    pub variables: usize,
    pub statements: usize,
    pub rows: usize,
}

// The kinds of variables: 0 integer, 1 array_ptr, 2 nt_array_ptr.
#[derive(Clone, Copy, Debug, PartialEq, Eq)]
pub enum Kind {
    Integer,
    Array,
    String,
}

// Six words and no row, or eight words and at most 64 rows.
fn start_right(sections: Sections) -> bool
    ensures { result ≡ start_right sections }
{
    ((sections.start == 6) & (sections.rows == 0)) | ((sections.start == 8) & (sections.rows <= 64))
}

pub fn in_limits(sections: Sections) -> bool
    ensures { result ≡ in_limits sections }
{
    (sections.objects <= 16)
        & (1 <= sections.variables)
        & (sections.variables <= 16)
        & (sections.statements <= 1024)
        & start_right(sections)
}

fn is_variable(sections: Sections, v: usize) -> bool
    ensures { result ≡ is_variable sections v }
{
    in_limits(sections) & (v < sections.variables)
}

// The kind of a kind word.
pub fn kind_of(w: u64) -> Option<Kind>
    ensures { result ≡ kind_of w }
{
    if w == BIAS {
        return Some(Kind::Integer);
    }
    if w == BIAS + 1 {
        return Some(Kind::Array);
    }
    if w == BIAS + 2 {
        return Some(Kind::String);
    }
    None
}

// The kind of a variable; none where there is no such variable.
fn kind_at(table: &[i32], sections: Sections, v: usize) -> Option<Kind>
    ensures { result ≡ kind_at table.now sections v }
{
    if is_variable(sections, v) {
        return kind_of(word(table, sections.start + sections.objects + 8 * v));
    }
    None
}

// A test of the kind, by its three answers.
pub fn kind_is(integer: bool, array: bool, string: bool, read: Option<Kind>) -> bool
    ensures { result ≡ kind_is integer array string read }
{
    let Some(kind) = read else {
        return false;
    };
    match kind {
        Kind::Integer => integer,
        Kind::Array => array,
        Kind::String => string,
    }
}

fn is_integer(table: &[i32], sections: Sections, v: usize) -> bool
    ensures { result ≡ integer_at table.now sections v }
{
    kind_is(true, false, false, kind_at(table, sections, v))
}

pub fn is_pointer(table: &[i32], sections: Sections, v: usize) -> bool
    ensures { result ≡ pointer_at table.now sections v }
{
    kind_is(false, true, true, kind_at(table, sections, v))
}

fn is_array(table: &[i32], sections: Sections, v: usize) -> bool
    ensures { result ≡ array_at table.now sections v }
{
    kind_is(false, true, false, kind_at(table, sections, v))
}

// An nt_array_ptr.
pub fn is_string(table: &[i32], sections: Sections, v: usize) -> bool
    ensures { result ≡ string_at table.now sections v }
{
    kind_is(false, false, true, kind_at(table, sections, v))
}

// A terminated object: its word is below 0.
pub fn object_terminated(table: &[i32], sections: Sections, o: usize) -> bool
    ensures { result ≡ object_terminated table.now sections o }
{
    if in_limits(sections) & (o < sections.objects) {
        return word(table, sections.start + o) < BIAS;
    }
    false
}

// Kinds 6 and 7: a kind 2 pointer takes kind 2 pointers only.
pub fn takes_pointer(table: &[i32], sections: Sections, v: u64, w: u64) -> bool
    ensures { result ≡ takes_pointer table.now sections v w }
{
    !is_string(table, sections, plain(v)) | is_string(table, sections, plain(w))
}

// Kind 5: a kind 2 pointer takes terminated objects only.
pub fn takes_object(table: &[i32], sections: Sections, v: u64, w: u64) -> bool
    ensures { result ≡ takes_object table.now sections v w }
{
    !is_string(table, sections, plain(v)) | object_terminated(table, sections, plain(w))
}

pub fn names_integer(table: &[i32], sections: Sections, w: u64) -> bool
    ensures { result ≡ names_integer table.now sections w }
{
    (BIAS <= w) & is_integer(table, sections, plain(w))
}

pub fn names_pointer(table: &[i32], sections: Sections, w: u64) -> bool
    ensures { result ≡ names_pointer table.now sections w }
{
    (BIAS <= w) & is_pointer(table, sections, plain(w))
}

pub fn names_array(table: &[i32], sections: Sections, w: u64) -> bool
    ensures { result ≡ names_array table.now sections w }
{
    (BIAS <= w) & is_array(table, sections, plain(w))
}

pub fn names_string(table: &[i32], sections: Sections, w: u64) -> bool
    ensures { result ≡ names_string table.now sections w }
{
    (BIAS <= w) & is_string(table, sections, plain(w))
}

// An integer variable, or -1 for none.
pub fn names_index(table: &[i32], sections: Sections, w: u64) -> bool
    ensures { result ≡ names_index table.now sections w }
{
    (w == BIAS - 1) | names_integer(table, sections, w)
}
