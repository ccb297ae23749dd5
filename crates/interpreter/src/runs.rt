// The run: steps from a statement on, up to a limit.
ghost use Rattle.std.specs.Prelude.{◌≡◌, ◌-◌, ◌≤◌, length, get_or};
ghost use Rattle.arrays.specs.Tabulate.{tabulate};
ghost use Rattle.steps.specs.Bare.{Prepared};
ghost use Rattle.interpreter.specs.BareRun.{SafeRun, bare_run, Ends};
ghost use Rattle.interpreter.specs.Slots.{slots_of, Laid};

use answers::stops::Outcome;
use checks::Step;
use machine::value_at;
use std::array;
use steps::advance;
use words::sections::Sections;

// The steps of `resume`, in slots.
fn run_slots(
    table: &[i32],
    sections: Sections,
    ends: &mut [u64],
    directory: &[u32],
    successors: &[u32],
    first: usize,
    made: u32,
    values: &mut [u32],
    cells: &mut [u32],
    limit: u32,
) -> Outcome
    requires prepared { Prepared table.now sections ends.old directory.now successors.now values.old }
    requires made_le_limit { made ≤ limit }
    requires safe_run { SafeRun table.now sections ends.old directory.now successors.now (limit - made) first values.old cells.old }
    ensures { Ends (bare_run table.now sections ends.old directory.now successors.now (limit - made) made
        first values.old cells.old) result ends.new values.new cells.new }
{
    let mut at = first;
    let mut steps = made;
    while at < sections.statements {
        if steps >= limit {
            return Outcome::Spent {
                steps: steps,
                statement: at,
            };
        }
        let counted = steps + 1;
        let said = advance(
            table, sections, ends, directory, successors, at, values, cells,
        );
        match said {
            Step::Go(next) => {
                at = next;
                steps = counted;
            }
            Step::Stop(check) => {
                return Outcome::Stopped {
                    steps: counted,
                    check: check,
                };
            }
            Step::Call => {
                return Outcome::Spent {
                    steps: steps,
                    statement: at,
                };
            }
        }
    }
    Outcome::Done { steps: steps }
}

// The slots of the lent values.
fn load_slots(values: &[u32]) -> [u32; 17]
    ensures { result ≡ slots_of values.now }
{
    array::from_fn(|x| value_at(values, x) as u32)
}

// What the slots have, for each lent value.
fn store_slots(slots: [u32; 17], values: &mut [u32])
    requires { length values.old ≤ 17 }
    ensures { values.new ≡ tabulate (length values.old) (λ x. get_or slots x 0) }
{
    values.copy_from_slice(&slots[..values.len()]);
}

// Goes on from the statement `first` with `made` steps made, up to `limit` of them, with the ends, values and cells as they are.
// A run that is spent goes on from the statement that it gives: a call, where it is spent before the limit.
// The steps are made in slots, which each number of a variable has and the number that stands for zero too, so that no step tests for one that is missing.
pub fn resume(
    table: &[i32],
    sections: Sections,
    ends: &mut [u64],
    directory: &[u32],
    successors: &[u32],
    first: usize,
    made: u32,
    values: &mut [u32],
    cells: &mut [u32],
    limit: u32,
) -> Outcome
    requires laid { Laid table.now sections ends.old directory.now successors.now values.old }
    requires made_le_limit { made ≤ limit }
    requires safe_run { SafeRun table.now sections ends.old directory.now successors.now (limit - made) first values.old cells.old }
    ensures { Ends (bare_run table.now sections ends.old directory.now successors.now (limit - made) made
        first values.old cells.old) result ends.new values.new cells.new }
{
    let mut slots = load_slots(values);
    let outcome = run_slots(
        table, sections, ends, directory, successors, first, made, &mut slots, cells, limit,
    );
    store_slots(slots, values);
    outcome
}
