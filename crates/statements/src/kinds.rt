// The fifteen kinds of statements, a reader each. A reader tests all fields of its kind; what it does not use is 0.
ghost use Rattle.std.specs.Prelude.{◌≡◌};
ghost use Rattle.statements.specs.Statements.{unused_from, literal_read, add_constant_read, arithmetic_read, null_read, address_read, pointer_offset_read};
ghost use Rattle.statements.specs.Statements.{pointer_index_read, load_read, store_read, check_read, if_read, while_read, bundle_read, declare_read};
ghost use Rattle.statements.specs.Statements.{is_argument, call_site, call_read, kind_read};

use crate::{CallSite, Simple, Statement};
use conditions::{condition_of, condition_right};
use sums::BIAS;
use words::Fields;
use words::field::{COUNTS, index_of, is_below, is_constant, is_zero, literal_value, plain};
use words::sections::{
    Sections, names_index, names_integer, names_pointer, takes_object, takes_pointer,
};

// Each field from number n on is 0. Every kind uses the first.
fn unused_from(n: usize, f: Fields) -> bool
    ensures { result ≡ unused_from n f }
{
    ((2 < n) | is_zero(f.second))
        & ((3 < n) | is_zero(f.third))
        & ((4 < n) | is_zero(f.fourth))
        & ((5 < n) | is_zero(f.fifth))
        & ((6 < n) | is_zero(f.sixth))
}

// Kind 1: x := literal.
fn read_literal(table: &[i32], sections: Sections, f: Fields) -> Option<Statement>
    ensures { result ≡ literal_read table.now sections f }
{
    if names_integer(table, sections, f.first) & unused_from(3, f) {
        return Some(Statement::Plain(Simple::Literal {
            target: plain(f.first),
            value: literal_value(f.second),
        }));
    }
    None
}

// Kind 2: x := y + k.
fn read_add_constant(table: &[i32], sections: Sections, f: Fields) -> Option<Statement>
    ensures { result ≡ add_constant_read table.now sections f }
{
    if names_integer(table, sections, f.first)
        & names_integer(table, sections, f.second)
        & is_constant(f.third)
        & unused_from(4, f)
    {
        return Some(Statement::Plain(Simple::AddConstant {
            target: plain(f.first),
            source: plain(f.second),
            constant: f.third,
        }));
    }
    None
}

// Kind 3: x := y op z.
fn read_arithmetic(table: &[i32], sections: Sections, f: Fields) -> Option<Statement>
    ensures { result ≡ arithmetic_read table.now sections f }
{
    if names_integer(table, sections, f.first)
        & names_integer(table, sections, f.second)
        & names_integer(table, sections, f.third)
        & is_below(3, f.fourth)
        & unused_from(5, f)
    {
        return Some(Statement::Plain(Simple::Arithmetic {
            target: plain(f.first),
            left: plain(f.second),
            right: plain(f.third),
            operation: plain(f.fourth),
        }));
    }
    None
}

// Kind 4: p := null.
fn read_null(table: &[i32], sections: Sections, f: Fields) -> Option<Statement>
    ensures { result ≡ null_read table.now sections f }
{
    if names_pointer(table, sections, f.first) & unused_from(2, f) {
        return Some(Statement::Plain(Simple::Null {
            target: plain(f.first),
        }));
    }
    None
}

// Kind 5: p := address of object o.
fn read_address(table: &[i32], sections: Sections, f: Fields) -> Option<Statement>
    ensures { result ≡ address_read table.now sections f }
{
    if names_pointer(table, sections, f.first)
        & is_below(sections.objects, f.second)
        & takes_object(table, sections, f.first, f.second)
        & unused_from(3, f)
    {
        return Some(Statement::Plain(Simple::Address {
            target: plain(f.first),
            object: plain(f.second),
        }));
    }
    None
}

// Kind 6: p := q + k.
fn read_pointer_offset(table: &[i32], sections: Sections, f: Fields) -> Option<Statement>
    ensures { result ≡ pointer_offset_read table.now sections f }
{
    if names_pointer(table, sections, f.first)
        & names_pointer(table, sections, f.second)
        & is_constant(f.third)
        & takes_pointer(table, sections, f.first, f.second)
        & unused_from(4, f)
    {
        return Some(Statement::Plain(Simple::PointerOffset {
            target: plain(f.first),
            source: plain(f.second),
            constant: f.third,
        }));
    }
    None
}

// Kind 7: p := q + i. Here i is a variable.
fn read_pointer_index(table: &[i32], sections: Sections, f: Fields) -> Option<Statement>
    ensures { result ≡ pointer_index_read table.now sections f }
{
    if names_pointer(table, sections, f.first)
        & names_pointer(table, sections, f.second)
        & names_integer(table, sections, f.third)
        & takes_pointer(table, sections, f.first, f.second)
        & unused_from(4, f)
    {
        return Some(Statement::Plain(Simple::PointerIndex {
            target: plain(f.first),
            source: plain(f.second),
            index: plain(f.third),
        }));
    }
    None
}

// Kind 8: x := p[i + k].
fn read_load(table: &[i32], sections: Sections, f: Fields) -> Option<Statement>
    ensures { result ≡ load_read table.now sections f }
{
    if names_integer(table, sections, f.first)
        & names_pointer(table, sections, f.second)
        & names_index(table, sections, f.third)
        & is_constant(f.fourth)
        & unused_from(5, f)
    {
        return Some(Statement::Plain(Simple::Load {
            target: plain(f.first),
            pointer: plain(f.second),
            index: index_of(f.third),
            constant: f.fourth,
        }));
    }
    None
}

// Kind 9: p[i + k] := x.
fn read_store(table: &[i32], sections: Sections, f: Fields) -> Option<Statement>
    ensures { result ≡ store_read table.now sections f }
{
    if names_pointer(table, sections, f.first)
        & names_index(table, sections, f.second)
        & is_constant(f.third)
        & names_integer(table, sections, f.fourth)
        & unused_from(5, f)
    {
        return Some(Statement::Plain(Simple::Store {
            pointer: plain(f.first),
            index: index_of(f.second),
            constant: f.third,
            source: plain(f.fourth),
        }));
    }
    None
}

// Kind 10: dynamic check.
fn read_check(table: &[i32], sections: Sections, f: Fields) -> Option<Statement>
    ensures { result ≡ check_read table.now sections f }
{
    if condition_right(table, sections, f) & unused_from(5, f) {
        return Some(Statement::Plain(Simple::Check {
            condition: condition_of(f),
        }));
    }
    None
}

// Kind 11: if.
fn read_if(table: &[i32], sections: Sections, f: Fields) -> Option<Statement>
    ensures { result ≡ if_read table.now sections f }
{
    if condition_right(table, sections, f) & is_below(COUNTS, f.fifth) & is_below(COUNTS, f.sixth) {
        return Some(Statement::If {
            condition: condition_of(f),
            then_count: plain(f.fifth),
            else_count: plain(f.sixth),
        });
    }
    None
}

// Kind 12: while.
fn read_while(table: &[i32], sections: Sections, f: Fields) -> Option<Statement>
    ensures { result ≡ while_read table.now sections f }
{
    if condition_right(table, sections, f) & is_below(COUNTS, f.fifth) & unused_from(6, f) {
        return Some(Statement::While {
            condition: condition_of(f),
            count: plain(f.fifth),
        });
    }
    None
}

// Kind 13: bundle. Its count is judged with the blocks, so a negative one reads as 0.
fn read_bundle(f: Fields) -> Option<Statement>
    ensures { result ≡ bundle_read f }
{
    if (plain(f.first) < COUNTS) & unused_from(2, f) {
        return Some(Statement::Bundle {
            count: plain(f.first),
        });
    }
    None
}

// Kind 14: bounds declared at a statement. The row is one of the table's.
fn read_declare(table: &[i32], sections: Sections, f: Fields) -> Option<Statement>
    ensures { result ≡ declare_read table.now sections f }
{
    if names_pointer(table, sections, f.first)
        & is_below(sections.rows, f.second)
        & unused_from(3, f)
    {
        return Some(Statement::Plain(Simple::Declare {
            pointer: plain(f.first),
            row: plain(f.second),
        }));
    }
    None
}

// An argument of a call: a variable, or -1 for none.
fn is_argument(sections: Sections, w: u64) -> bool
    ensures { result ≡ is_argument sections w }
{
    (w == BIAS - 1) | is_below(sections.variables, w)
}

fn call_site(f: Fields) -> CallSite
    ensures { result ≡ call_site f }
{
    CallSite {
        callee: literal_value(f.first),
        result: index_of(f.second),
        first: index_of(f.third),
        second: index_of(f.fourth),
        third: index_of(f.fifth),
        fourth: index_of(f.sixth),
    }
}

// Kind 15: a call. Whether there is such a callee, and whether the arguments fit it, is judged in the walk.
fn read_call(table: &[i32], sections: Sections, f: Fields) -> Option<Statement>
    ensures { result ≡ call_read table.now sections f }
{
    if names_index(table, sections, f.second)
        & is_argument(sections, f.third)
        & is_argument(sections, f.fourth)
        & is_argument(sections, f.fifth)
        & is_argument(sections, f.sixth)
    {
        return Some(Statement::Call(call_site(f)));
    }
    None
}

pub(crate) fn read_kind(table: &[i32], sections: Sections, f: Fields) -> Option<Statement>
    ensures { result ≡ kind_read table.now sections f }
{
    let kind = plain(f.kind);
    match kind {
        1 => read_literal(table, sections, f),
        2 => read_add_constant(table, sections, f),
        3 => read_arithmetic(table, sections, f),
        4 => read_null(table, sections, f),
        5 => read_address(table, sections, f),
        6 => read_pointer_offset(table, sections, f),
        7 => read_pointer_index(table, sections, f),
        8 => read_load(table, sections, f),
        9 => read_store(table, sections, f),
        10 => read_check(table, sections, f),
        11 => read_if(table, sections, f),
        12 => read_while(table, sections, f),
        13 => read_bundle(f),
        14 => read_declare(table, sections, f),
        15 => read_call(table, sections, f),
        _ => None,
    }
}
