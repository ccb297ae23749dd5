// The walk from the last place of a store to the end of the table: the verdict, how many statements were walked, the places kept (point 13).
#![tactic(auto)]

mod walking; // walking.rt: the walk from a place to the end, and the places that it keeps

ghost use Rattle.std.specs.Prelude.{◌≡◌, ◌≤◌};
ghost use Rattle.rules.specs.Ranges.{Measured};
ghost use Rattle.rules.specs.Verdict.{environment_of};
ghost use Rattle.places.specs.Places.{places};
ghost use Rattle.places.specs.Positions.{begun_to};
ghost use Rattle.rewalks.specs.Rewalks.{Begins, Rewalks};

use answers::refusals::Refusal;
use blocks::lay_block;
use edits::span;
use facts::FactSet;
use places::{facts_at, place_count, position_at, rows_at};
use rules::lookups::Rows;
use words::sections::Sections;

// Where a walk begins: a position, the facts and the rows in force there.
#[derive(Clone, Copy)]
struct Begin {
    position: usize,
    facts: FactSet,
    rows: Rows,
}

// The verdict on the table, and how many statements were walked for it.
#[derive(Clone, Copy)]
pub struct Rewalked {
    pub verdict: Result<(), Refusal>,
    pub walked: usize,
}

// The last place of the store, else the start.
fn last_place(store: &[u64]) -> Begin
    ensures { Begins (places store.now) result }
{
    let count = place_count(store);
    if count == 0 {
        return Begin {
            position: 0,
            facts: FactSet::new(),
            rows: Rows { each: [0; 16] },
        };
    }
    let last = count - 1;
    Begin {
        position: position_at(store, last),
        facts: facts_at(store, last),
        rows: rows_at(store, last),
    }
}

// The number behind the last statement that was begun.
fn begun_to(table: &[i32], sections: Sections, verdict: Result<(), Refusal>) -> usize
    requires { sections.statements ≤ 1024 }
    ensures { result ≡ begun_to table.now sections verdict }
{
    let Err(refusal) = verdict else {
        return sections.statements;
    };
    let place = refusal.place();
    if place >= sections.statements {
        return sections.statements;
    }
    place + span(table, sections, place)
}

// The walk from the last place of the store to the end.
pub fn rewalk(table: &[i32], sections: Sections, keep: &[u32], store: &mut [u64]) -> Rewalked
    requires { Measured (environment_of table.now sections) × (sections.statements ≤ 1024) }
    ensures { Rewalks table.now sections keep.now store.old result store.new }
{
    let start = last_place(store);
    let from = start.position;
    let end = sections.statements;
    if from > end {
        return Rewalked {
            verdict: Err(Refusal::BlockLayout(from)),
            walked: 0,
        };
    }
    let layout = lay_block(table, sections, 0, from, end, end);
    match layout {
        Err(refusal) => Rewalked {
            verdict: Err(refusal),
            walked: 0,
        },
        Ok(()) => {
            let facts = start.facts;
            let rows = start.rows;
            let verdict = walking::walk_on(table, sections, keep, store, from, facts, rows);
            let to = begun_to(table, sections, verdict);
            Rewalked {
                verdict,
                walked: to.saturating_sub(from),
            }
        }
    }
}
