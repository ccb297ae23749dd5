// The check of a set of routines: the verdict on each by number, and the first one refused is named.
#![tactic(auto)]

pub mod member; // member.rt: a table with the objects of routine 0 put in

ghost use Rattle.std.specs.Prelude.{ℕ, ◌≤◌, ◌<◌, true, ◌≡◌, [], length, Ok};
ghost use Rattle.table.specs.Form.{head_right};
ghost use Rattle.rules.specs.Sets.{RoutineJudged};
ghost use Rattle.rules.specs.Stored.{faults};
ghost use Rattle.rules.specs.Verdict.{verdict_of};
ghost use Rattle.declared.specs.Callee.{callees_in};
ghost use Rattle.sets.specs.Tables.{tables_in};
ghost use Rattle.sets.specs.Member.{later_faults};
ghost use Rattle.sets.specs.Checked.{member_words, SetAnswered};

use answers::refusals::Refusal;
use checker::sections::check_sections;
use member::put_objects;
use parts::span_of;
use rules::SetRefusal;
use table::{head_right, read_form, sections_of};

// The verdict on a table of a routine that may call the callees. `callees` are the lengths of their tables, which stand in `words`, one after the other.
fn check_routine(table: &[i32], words: &[i32], callees: &[u32]) -> Result<(), Refusal>
    ensures { result ≡ verdict_of (faults (callees_in words.now callees.now) table.now []) }
{
    let sections = read_form(table)?;
    let listed = [0i32; 0];
    check_sections(table, sections, &listed, words, callees)?;
    Ok(())
}

// The verdict on a routine behind the first: causes 1 and 2, then that it lists no objects, then with those of routine 0 put in.
fn check_later(
    first: &[i32],
    table: &[i32],
    words: &[i32],
    callees: &[u32],
    member: &mut [i32],
) -> Result<(), Refusal>
    requires { (head_right first.now ≡ true) × (member_words ≤ length member.old) }
    ensures value { result ≡ verdict_of (later_faults (callees_in words.now callees.now) first.now table.now) }
    ensures long { length member.new ≡ length member.old }
{
    if !head_right(table) {
        let none = [0u32; 0];
        return check_routine(table, words, &none);
    }
    let sections = sections_of(table);
    if sections.objects != 0 {
        return Err(Refusal::ObjectLength(0));
    }
    let count = put_objects(first, table, member);
    check_routine(&member[..count], words, callees)
}

// The verdict on routine n, where those before it are accepted.
fn check_numbered(
    tables: &[i32],
    lengths: &[u32],
    member: &mut [i32],
    n: usize,
) -> Result<(), Refusal>
    requires { (n < length lengths.now) × (length lengths.now ≤ 8) × (member_words ≤ length member.old)
        × ((m : ℕ) → m < n → RoutineJudged (tables_in tables.now lengths.now) m (Ok tt)) }
    ensures routine_judged { RoutineJudged (tables_in tables.now lengths.now) n result }
    ensures long { length member.new ≡ length member.old }
{
    let own = span_of(lengths, 1, 0, n, tables.len());
    let own_start = own.start;
    let own_end = own.end;
    if n == 0 {
        let none = [0u32; 0];
        return check_routine(&tables[own_start..own_end], tables, &none);
    }
    let first = span_of(lengths, 1, 0, 0, tables.len());
    let first_start = first.start;
    let first_end = first.end;
    check_later(
        &tables[first_start..first_end],
        &tables[own_start..own_end],
        tables,
        &lengths[..n],
        member,
    )
}

// The verdict on the set whose tables stand in `tables`, one after the other; `lengths` are their lengths in words. `member` is room for one of them with the
// objects of routine 0 put in.
pub fn check_set(
    tables: &[i32],
    lengths: &[u32],
    member: &mut [i32],
) -> Option<Result<(), SetRefusal>>
    ensures { SetAnswered (length member.old) (tables_in tables.now lengths.now) result }
{
    if member.len() < 7720 {
        return None;
    }
    let count = lengths.len();
    if count < 1 {
        return Some(Err(SetRefusal {
            routine: 0,
            refusal: Refusal::RoutineCount,
        }));
    }
    if 8 < count {
        return Some(Err(SetRefusal {
            routine: 0,
            refusal: Refusal::RoutineCount,
        }));
    }
    for n in 0..count {
        let verdict = check_numbered(tables, lengths, member, n);
        match verdict {
            Err(refusal) => {
                return Some(Err(SetRefusal {
                    routine: n,
                    refusal,
                }));
            }
            Ok(()) => {}
        }
    }
    Some(Ok(()))
}
