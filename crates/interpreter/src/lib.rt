// The interpreter: the run of an accepted routine.
#![tactic(auto)]

pub mod runs; // runs.rt: the run: steps from a statement on, up to a limit
pub mod starts; // starts.rt: what a run begins with

ghost use Rattle.interpreter.specs.Claim.{RunJudged};

use answers::stops::Outcome;
use runs::resume;
use starts::prepare;

// Checks the routine with its list of loop facts and what is lent, then runs it, `limit` steps at most. Cells and values are changed in place; a refusal
// changes nothing.
pub fn run(
    table: &[i32],
    listed: &[i32],
    directory: &[u32],
    cells: &mut [u32],
    values: &mut [u32],
    origins: &[u32],
    limit: u32,
) -> Outcome
    ensures { RunJudged table.now listed.now (record {
      directory = directory.entry.now;
      cells = cells.old;
      values = values.old;
      origins = origins.now;
    }) limit (record { answer = result; routine = 0; values = values.new; cells = cells.new }) }
{
    let mut ends = [0u64; 512];
    let mut successors = [0u32; 2048];
    let start = prepare(
        table,
        listed,
        directory,
        cells,
        values,
        origins,
        &mut ends,
        &mut successors,
    );
    match start {
        Err(refusal) => Outcome::Refused(refusal),
        Ok(sections) => {
            resume(
                table,
                sections,
                &mut ends,
                directory,
                &successors,
                0usize,
                0,
                values,
                cells,
                limit,
            )
        }
    }
}
