// The statements of a table that has been checked: decoded by their kind, with no test of a field. Words are taken as unsigned numbers, which costs
// nothing, and for a field that the readers let pass is the same number. Each kind takes its own words from the table: seven words taken before the kind is
// known are kept at the width of the widest use, and each use pays for it.
ghost use Rattle.std.specs.Prelude.{◌≡◌, ◌+◌, ◌^◌, ◌<◌, ◌≤◌, length};
ghost use Rattle.words.specs.Words.{word, fields_at};
ghost use Rattle.words.specs.Sections.{statement_start};
ghost use Rattle.statements.specs.Decode.{unsigned, decoded_index, decoded_right, decoded_offset, decoded_condition, decoded_call, decoded, decoded_at};
ghost use Rattle.statements.specs.Decode.{decoded_call_at};

use crate::{CallSite, Simple, Statement};
use conditions::Condition;
use sums::BIAS;
use words::field::{is_zero, literal_value, plain};
use words::sections::Sections;
use words::word_within;

// The 32 bits of a word as an unsigned number.
fn unsigned(w: u64) -> usize
    ensures { result ≡ unsigned w }
{
    (w % 4294967296) as usize
}

// The number of an index variable: 16 for -1.
fn decode_index(w: u64) -> usize
    ensures { result ≡ decoded_index w }
{
    if w == BIAS - 1 {
        return 16;
    }
    unsigned(w)
}

fn decode_right(form: u64, w: u64) -> usize
    ensures { result ≡ decoded_right form w }
{
    if is_zero(form) {
        return unsigned(w);
    }
    16
}

fn decode_offset(form: u64, w: u64) -> u64
    ensures { result ≡ decoded_offset form w }
{
    if is_zero(form) {
        return 0;
    }
    literal_value(w)
}

// The 32 bits of the word at an index.
fn unsigned_at(table: &[i32], i: usize) -> usize
    requires { i < length table.now }
    ensures { result ≡ unsigned (word table.now i) }
{
    unsigned(word_within(table, i))
}

fn decode_condition(table: &[i32], start: usize) -> Condition
    requires { start + 7 ≤ length table.now }
    ensures { result ≡ decoded_condition (fields_at table.now start) }
{
    Condition {
        left: unsigned_at(table, start + 1),
        relation: unsigned_at(table, start + 2),
        right: decode_right(word_within(table, start + 3), word_within(table, start + 4)),
        offset: decode_offset(word_within(table, start + 3), word_within(table, start + 4)),
    }
}

fn decode_call(table: &[i32], start: usize) -> CallSite
    requires { start + 7 ≤ length table.now }
    ensures { result ≡ decoded_call (fields_at table.now start) }
{
    CallSite {
        callee: literal_value(word_within(table, start + 1)),
        result: decode_index(word_within(table, start + 2)),
        first: decode_index(word_within(table, start + 3)),
        second: decode_index(word_within(table, start + 4)),
        third: decode_index(word_within(table, start + 5)),
        fourth: decode_index(word_within(table, start + 6)),
    }
}

// The statement of a record. A kind that is none of 1 to 14 is taken for 15.
fn decode_kind(table: &[i32], start: usize) -> Statement
    requires { start + 7 ≤ length table.now }
    ensures { result ≡ decoded (fields_at table.now start) }
{
    let kind = unsigned_at(table, start);
    match kind {
        1 => Statement::Plain(Simple::Literal {
            target: unsigned_at(table, start + 1),
            value: literal_value(word_within(table, start + 2)),
        }),
        2 => Statement::Plain(Simple::AddConstant {
            target: unsigned_at(table, start + 1),
            source: unsigned_at(table, start + 2),
            constant: word_within(table, start + 3),
        }),
        3 => Statement::Plain(Simple::Arithmetic {
            target: unsigned_at(table, start + 1),
            left: unsigned_at(table, start + 2),
            right: unsigned_at(table, start + 3),
            operation: unsigned_at(table, start + 4),
        }),
        4 => Statement::Plain(Simple::Null {
            target: unsigned_at(table, start + 1),
        }),
        5 => Statement::Plain(Simple::Address {
            target: unsigned_at(table, start + 1),
            object: unsigned_at(table, start + 2),
        }),
        6 => Statement::Plain(Simple::PointerOffset {
            target: unsigned_at(table, start + 1),
            source: unsigned_at(table, start + 2),
            constant: word_within(table, start + 3),
        }),
        7 => Statement::Plain(Simple::PointerIndex {
            target: unsigned_at(table, start + 1),
            source: unsigned_at(table, start + 2),
            index: unsigned_at(table, start + 3),
        }),
        8 => Statement::Plain(Simple::Load {
            target: unsigned_at(table, start + 1),
            pointer: unsigned_at(table, start + 2),
            index: decode_index(word_within(table, start + 3)),
            constant: word_within(table, start + 4),
        }),
        9 => Statement::Plain(Simple::Store {
            pointer: unsigned_at(table, start + 1),
            index: decode_index(word_within(table, start + 2)),
            constant: word_within(table, start + 3),
            source: unsigned_at(table, start + 4),
        }),
        10 => Statement::Plain(Simple::Check {
            condition: decode_condition(table, start),
        }),
        11 => Statement::If {
            condition: decode_condition(table, start),
            then_count: plain(word_within(table, start + 5)),
            else_count: plain(word_within(table, start + 6)),
        },
        12 => Statement::While {
            condition: decode_condition(table, start),
            count: plain(word_within(table, start + 5)),
        },
        13 => Statement::Bundle {
            count: plain(word_within(table, start + 1)),
        },
        14 => Statement::Plain(Simple::Declare {
            pointer: unsigned_at(table, start + 1),
            row: unsigned_at(table, start + 2),
        }),
        _ => Statement::Call(decode_call(table, start)),
    }
}

// Where the record of a statement starts.
fn record_start(sections: Sections, at: usize) -> usize
    requires { statement_start sections at < 2 ^ 64 }
    ensures { result ≡ statement_start sections at }
{
    sections.start + sections.objects + 8 * sections.variables + 7 * at
}

// The call of a number, for a statement that is one. The run of a set reads its calls so, and not by `decode_statement`: with a second caller that is no
// longer compiled into the loop of a run, whose steps then take three times the time.
pub fn decode_call_at(table: &[i32], sections: Sections, at: usize) -> CallSite
    requires { statement_start sections at + 7 ≤ length table.now }
    ensures { result ≡ decoded_call_at table.now sections at }
{
    decode_call(table, record_start(sections, at))
}

// The statement of a number.
pub fn decode_statement(table: &[i32], sections: Sections, at: usize) -> Statement
    requires { statement_start sections at + 7 ≤ length table.now }
    ensures { result ≡ decoded_at table.now sections at }
{
    decode_kind(table, record_start(sections, at))
}
