// What a run of a set begins with: what is lent is checked, and the successors of all statements are laid out.
ghost use Rattle.std.specs.Prelude.{◌+◌, ◌-◌, ◌*◌, ◌<◌, ◌≤◌, ◌≡◌, length};
ghost use Rattle.rules.specs.Sets.{member_of, AllAccepted};
ghost use Rattle.entry.specs.Entered.{entered};
ghost use Rattle.interpreter.specs.Claim.{entry_faults};
ghost use Rattle.sets.specs.Checked.{member_words};
ghost use Rattle.sets.specs.Tables.{tables_in};
ghost use Rattle.set_runs.specs.Prepared.{Holds, FlowLaid, AllLaid};

use answers::refusals::Refusal;
use blocks::flow::write_successors;
use entry::enter;
use parts::span_of;
use rules::read_environment;
use sets::member::put_objects;
use table::sections_of;

// A table, into the room: how many words it has.
fn copy_table(table: &[i32], member: &mut [i32]) -> usize
    requires { length table.now ≤ length member.old }
    ensures { Holds table.now member.old result member.new }
{
    let count = table.len();
    member[..count].copy_from_slice(table);
    count
}

// Routine n as it was checked, into the room: how many words it has. Routine 0 is its own table; the others have its objects put in.
fn put_member(tables: &[i32], lengths: &[u32], n: usize, member: &mut [i32]) -> usize
    requires { AllAccepted (tables_in tables.now lengths.now) × (n < length lengths.now) × (member_words ≤ length member.old) }
    ensures { Holds (member_of (tables_in tables.now lengths.now) n) member.old result member.new }
{
    let own = span_of(lengths, 1, 0, n, tables.len());
    if n == 0 {
        return copy_table(&tables[own.start..own.end], member);
    }
    let first = span_of(lengths, 1, 0, 0, tables.len());
    put_objects(
        &tables[first.start..first.end],
        &tables[own.start..own.end],
        member,
    )
}

// The successors of routine n's statements, in its part of the room.
fn lay_flow(tables: &[i32], lengths: &[u32], n: usize, member: &mut [i32], successors: &mut [u32])
    requires { AllAccepted (tables_in tables.now lengths.now) × (n < length lengths.now) × (member_words ≤ length member.old)
        × (length successors.old ≡ 16384) }
    ensures { FlowLaid (member_of (tables_in tables.now lengths.now) n) n successors.old successors.new }
{
    let count = put_member(tables, lengths, n, member);
    let sections = sections_of(&member[..count]);
    let start = 2048 * n;
    let end = start + 2048;
    write_successors(&member[..count], sections, &mut successors[start..end]);
}

// The successors of all routines.
pub(crate) fn lay_flows(tables: &[i32], lengths: &[u32], member: &mut [i32], successors: &mut [u32])
    requires { AllAccepted (tables_in tables.now lengths.now) × (member_words ≤ length member.old) × (length successors.old ≡ 16384) }
    ensures { AllLaid tables.now lengths.now (length lengths.now) successors.new }
{
    for n in 0..lengths.len() {
        lay_flow(tables, lengths, n, member, successors);
    }
}

// Causes 10 to 12 and 16, of the last routine.
pub(crate) fn enter_last(
    tables: &[i32],
    lengths: &[u32],
    member: &mut [i32],
    directory: &[u32],
    cells: &[u32],
    values: &[u32],
    origins: &[u32],
) -> Result<(), Refusal>
    requires { AllAccepted (tables_in tables.now lengths.now) × (member_words ≤ length member.old) }
    ensures { result ≡ entered (entry_faults (tables_in tables.now lengths.now) (record {
      directory = directory.entry.now;
      cells = cells.now;
      values = values.now;
      origins = origins.now;
    })) }
{
    let last = lengths.len() - 1;
    let count = put_member(tables, lengths, last, member);
    let sections = sections_of(&member[..count]);
    let environment = read_environment(&member[..count], sections);
    enter(sections, environment, directory, cells, values, origins)
}
