// The walk from a place to the end, and the places that it keeps on its way.
ghost use Rattle.std.specs.Prelude.{◌<◌, ◌≤◌};
ghost use Rattle.blocks.specs.Shape.{Laid};
ghost use Rattle.blocks.specs.Tree.{parse};
ghost use Rattle.rules.specs.Ranges.{Measured};
ghost use Rattle.rules.specs.Verdict.{environment_of};
ghost use Rattle.declared.specs.Force.{state_of, Framed, Forced};
ghost use Rattle.checker.specs.Walk.{InPlace};
ghost use Rattle.rewalks.specs.Stops.{Stands, Stop};
ghost use Rattle.rewalks.specs.Walking.{rest_of, WalksPart, WalkedOn};

use answers::refusals::Refusal;
use bundles::Walked;
use checker::walk::walk;
use declared::force::{Force, Frame, force_of, frame_of, same_rows};
use edits::span;
use facts::FactSet;
use places::{is_named, keep_place};
use reports::no_report;
use rules::lookups::Rows;
use words::sections::Sections;

// The next top-level statement behind `at` that is named, else the end.
// No `for`: `stop` goes on behind a statement's blocks.
fn next_stop(table: &[i32], sections: Sections, keep: &[u32], at: usize, end: usize) -> usize
    requires { (at < end) × (end ≤ 1024) × Stands table.now sections at end }
    ensures { Stop table.now sections keep.now at end result }
{
    let mut stop = at + span(table, sections, at);
    while stop < end {
        if is_named(keep, stop) {
            return stop;
        }
        stop += span(table, sections, stop);
    }
    stop
}

// What the rows put in force: what was in force before, where they are the same.
fn force_after(table: &[i32], sections: Sections, force: Force, rows: Rows) -> Force
    requires { Forced (environment_of table.now sections) force.rows.each force }
    ensures { Forced (environment_of table.now sections) rows.each result }
{
    if same_rows(force.rows, rows) {
        return force;
    }
    force_of(table, sections, rows)
}

// The checker's walk over a part of the statements, with no loop facts ("has no list of loop facts"), of a routine by itself. What it would
// report is of no use here.
fn walk_part(
    table: &[i32],
    sections: Sections,
    frame: Frame,
    force: Force,
    first: usize,
    end: usize,
    allowed: usize,
    facts: FactSet,
) -> Walked
    requires { Measured (environment_of table.now sections) × Framed (environment_of table.now sections) frame
        × Forced (environment_of table.now sections) force.rows.each force
        × InPlace table.now sections first (parse allowed table.now sections first end) }
    ensures { WalksPart (environment_of table.now sections) (parse allowed table.now sections first end)
        (state_of facts force.rows.each) result }
{
    let report = no_report();
    let listed = [0i32; 0];
    let callees = [0u32; 0];
    walk(
        table, sections, &listed, frame, force, first, end, allowed, facts, report, table, &callees,
    )
}

// The walk from the statement `from`, which is top-level or the end, to the end. Before each position that is named its place is kept.
// No `for`: `at` goes on to the next stop.
pub(crate) fn walk_on(
    table: &[i32],
    sections: Sections,
    keep: &[u32],
    store: &mut [u64],
    from: usize,
    facts: FactSet,
    rows: Rows,
) -> Result<(), Refusal>
    requires { Measured (environment_of table.now sections) × (sections.statements ≤ 1024)
        × Laid table.now sections 0 from sections.statements (rest_of table.now sections from) }
    ensures { WalkedOn table.now sections keep.now from (state_of facts rows.each) store.old result store.new }
{
    let end = sections.statements;
    let frame = frame_of(table, sections);
    let mut force = force_of(table, sections, rows);
    let mut now = Walked {
        verdict: Ok(()),
        facts,
        rows,
        report: no_report(),
    };
    let mut at = from;
    while at < end {
        let stop = next_stop(table, sections, keep, at, end);
        let next = walk_part(
            table,
            sections,
            frame,
            force,
            at,
            stop,
            stop - at,
            now.facts,
        );
        keep_place(store, keep, at, now.facts, force.rows);
        now = next;
        let verdict = now.verdict;
        let Ok(()) = verdict else {
            return verdict;
        };
        force = force_after(table, sections, force, now.rows);
        at = stop;
    }
    Ok(())
}
