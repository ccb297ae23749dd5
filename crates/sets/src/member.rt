// A routine of a set behind the first: its table with the objects of routine 0 put in ("Only routine 0 lists objects, for all").
ghost use Rattle.std.specs.Prelude.{◌≤◌, ◌<◌, true, ◌≡◌, pos, length, get_or};
ghost use Rattle.table.specs.Form.{sections_of, head_right};
ghost use Rattle.rules.specs.Sets.{object_words, with_objects};
ghost use Rattle.sets.specs.Member.{Puts, Put};
ghost use Rattle.sets.specs.Checked.{member_words};

use table::sections_of;
use words::sections::Sections;
use words::signed::{number_word, signed_word};

// A word of the directory: the count of objects, and the offsets behind them, are those with the objects put in.
fn head_word(first: &[i32], own: Sections, table: &[i32], sections: Sections, i: usize) -> i32
    requires { Puts first.now table.now own sections × (i < sections.start) }
    ensures { result ≡ get_or (with_objects (object_words first.now) table.now) i (pos 0) }
{
    let objects = own.objects;
    let second = sections.start + objects;
    let third = second + 8 * sections.variables;
    let fourth = third + 7 * sections.statements;
    match i {
        1 => number_word(objects),
        2 => number_word(second),
        4 => number_word(third),
        6 => number_word(fourth),
        _ => signed_word(table, i),
    }
}

// Word i of the table with the objects put in.
fn member_word(first: &[i32], own: Sections, table: &[i32], sections: Sections, i: usize) -> i32
    requires { Puts first.now table.now own sections × (i < member_words) }
    ensures { result ≡ get_or (with_objects (object_words first.now) table.now) i (pos 0) }
{
    let start = sections.start;
    if i < start {
        return head_word(first, own, table, sections, i);
    }
    if i < start + own.objects {
        return signed_word(first, own.start + (i - start));
    }
    signed_word(table, i - own.objects)
}

// The table with the objects put in, into the room; how many words it has.
pub fn put_objects(first: &[i32], table: &[i32], member: &mut [i32]) -> usize
    requires { (head_right first.now ≡ true) × (head_right table.now ≡ true) × ((sections_of table.now).objects ≡ 0) ×
        (member_words ≤ length member.old) }
    ensures { Put first.now table.now member.old result member.new }
{
    let own = sections_of(first);
    let sections = sections_of(table);
    let count = table.len() + own.objects;
    for i in 0..count {
        member[i] = member_word(first, own, table, sections, i);
    }
    count
}
