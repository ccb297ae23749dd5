// The form of a whole table: causes of refusal 1 to 5.
#![tactic(auto)]

pub mod variables; // variables.rt: the variables of a table, eight words each, read with every test that cause 4 asks for; and the lengths of the objects

ghost use Rattle.std.specs.Prelude.{◌≡◌, true};
ghost use Rattle.words.specs.Sections.{in_limits};
ghost use Rattle.table.specs.Form.{is_number, four_pairs, length_right, sections_of, fourth_right, directory_right, head_right, object_right, variable_reads};
ghost use Rattle.table.specs.Form.{row_reads, statement_reads, lowest_object, lowest_variable, lowest_row, lowest_statement, items_form, form_of};

use answers::refusals::Refusal;
use arrays::lowest;
use statements::read_statement;
use sums::BIAS;
use variables::{read_object, read_row, read_variable};
use words::field::plain;
use words::sections::{Sections, in_limits};
use words::word;

// The word is the number n.
fn is_number(n: usize, w: u64) -> bool
    ensures { result ≡ is_number n w }
{
    (BIAS <= w) & (plain(w) == n)
}

// Whether there is a fourth pair, that of the rows.
fn four_pairs(table: &[i32]) -> bool
    ensures { result ≡ four_pairs table.now }
{
    is_number(8, word(table, 0))
}

fn length_right(table: &[i32]) -> bool
    ensures { result ≡ length_right table.now }
{
    if four_pairs(table) {
        return (6 <= table.len()) & (table.len() <= 7704);
    }
    (6 <= table.len()) & (table.len() <= 7318)
}

// What the directory's lengths say of the sections.
pub fn sections_of(table: &[i32]) -> Sections
    ensures { result ≡ sections_of table.now }
{
    let objects = plain(word(table, 1));
    let variables = plain(word(table, 3)) / 8;
    let statements = plain(word(table, 5)) / 7;
    if four_pairs(table) {
        return Sections {
            start: 8,
            objects: objects,
            variables: variables,
            statements: statements,
            rows: plain(word(table, 7)) / 6,
        };
    }
    Sections {
        start: 6,
        objects: objects,
        variables: variables,
        statements: statements,
        rows: 0,
    }
}

// The fourth pair is the one of these sections, where there is one.
fn fourth_right(table: &[i32], sections: Sections) -> bool
    requires { in_limits sections ≡ true }
    ensures { result ≡ fourth_right table.now sections }
{
    let rows = sections.start + sections.objects + 8 * sections.variables + 7 * sections.statements;
    (sections.start == 6)
        | (is_number(rows, word(table, 6)) & is_number(6 * sections.rows, word(table, 7)))
}

// The pairs are the ones that these sections have, and the last section ends the table.
pub fn directory_right(table: &[i32], sections: Sections) -> bool
    ensures { result ≡ directory_right table.now sections }
{
    if !in_limits(sections) {
        return false;
    }
    // The lengths in words, the offsets of the second and the third section, and the end.
    let objects = sections.objects;
    let variables = 8 * sections.variables;
    let statements = 7 * sections.statements;
    let second = sections.start + objects;
    let third = second + variables;
    let end = third + statements + 6 * sections.rows;
    is_number(sections.start, word(table, 0))
        & is_number(objects, word(table, 1))
        & is_number(second, word(table, 2))
        & is_number(variables, word(table, 3))
        & is_number(third, word(table, 4))
        & is_number(statements, word(table, 5))
        & fourth_right(table, sections)
        & (table.len() == end)
}

// Causes 1 and 2 do not refuse the table.
pub fn head_right(table: &[i32]) -> bool
    ensures { result ≡ head_right table.now }
{
    length_right(table) & directory_right(table, sections_of(table))
}

fn object_right(table: &[i32], sections: Sections, o: usize) -> bool
    ensures { result ≡ object_right table.now sections o }
{
    let length = read_object(table, sections, o);
    (1 <= length) & (length <= 1000000)
}

fn variable_reads(table: &[i32], sections: Sections, v: usize) -> bool
    ensures { result ≡ variable_reads table.now sections v }
{
    read_variable(table, sections, v).is_some()
}

fn row_reads(table: &[i32], sections: Sections, r: usize) -> bool
    ensures { result ≡ row_reads table.now sections r }
{
    read_row(table, sections, r).is_some()
}

fn statement_reads(table: &[i32], sections: Sections, at: usize) -> bool
    ensures { result ≡ statement_reads table.now sections at }
{
    read_statement(table, sections, at).is_some()
}

// The lowest object whose length is wrong, else their number.
pub fn lowest_object(table: &[i32], sections: Sections) -> usize
    ensures { result ≡ lowest_object table.now sections }
{
    lowest(sections.objects, |o| !object_right(table, sections, o))
}

fn lowest_variable(table: &[i32], sections: Sections) -> usize
    ensures { result ≡ lowest_variable table.now sections }
{
    lowest(sections.variables, |v| !variable_reads(table, sections, v))
}

fn lowest_row(table: &[i32], sections: Sections) -> usize
    ensures { result ≡ lowest_row table.now sections }
{
    lowest(sections.rows, |r| !row_reads(table, sections, r))
}

pub fn lowest_statement(table: &[i32], sections: Sections) -> usize
    ensures { result ≡ lowest_statement table.now sections }
{
    lowest(
        sections.statements,
        |at| !statement_reads(table, sections, at),
    )
}

// Causes 3 to 5.
fn items_form(table: &[i32], sections: Sections) -> Result<Sections, Refusal>
    requires { in_limits sections ≡ true }
    ensures { result ≡ items_form table.now sections }
{
    let object = lowest_object(table, sections);
    if object < sections.objects {
        return Err(Refusal::ObjectLength(object));
    }
    let variable = lowest_variable(table, sections);
    if variable < sections.variables {
        return Err(Refusal::VariableRecord(variable));
    }
    let row = lowest_row(table, sections);
    if row < sections.rows {
        return Err(Refusal::VariableRecord(sections.variables + row));
    }
    let statement = lowest_statement(table, sections);
    if statement < sections.statements {
        return Err(Refusal::StatementRecord(statement));
    }
    Ok(sections)
}

// The first of the causes 1 to 5, in this order, each with its lowest place; else the sections.
pub fn read_form(table: &[i32]) -> Result<Sections, Refusal>
    ensures { result ≡ form_of table.now }
{
    if !length_right(table) {
        return Err(Refusal::Length);
    }
    let sections = sections_of(table);
    if !directory_right(table, sections) {
        return Err(Refusal::Directory);
    }
    items_form(table, sections)
}
