// The walk over a bundle.
#![tactic(auto)]

ghost use Rattle.std.specs.Prelude.{◌+◌, ◌^◌, ◌<◌};
ghost use Rattle.blocks.specs.Tree.{simples};
ghost use Rattle.rules.specs.Stored.{unshown};
ghost use Rattle.rules.specs.BoundsRules.{in_force};
ghost use Rattle.declared.specs.Force.{state_of, Framed, Forced};
ghost use Rattle.rules.specs.Rules.{bounds_at};
ghost use Rattle.rules.specs.Verdict.{environment_of};
ghost use Rattle.bounds.specs.Touched.{seen_as};
ghost use Rattle.rules.specs.Ranges.{Measured};
ghost use Rattle.bundles.specs.Bundles.{Passes, WalksBundle};

use answers::refusals::Refusal;
use bounds::touched::Seen;
use bounds::{KnownBounds, bounds_after};
use chains::shown::answer;
use declared::force::{Force, Frame, seen_in, with_row};
use declared::{
    Declaration, access_safe, access_shown, check_known, check_row, declares_of, is_access,
};
use effects::asked::ask_statement;
use effects::plan_statement;
use facts::FactSet;
use reader::read_due;
use reports::{Report, mark_if};
use rules::Effect;
use rules::lookups::Rows;
use statements::Statement;
use words::sections::Sections;

// The verdict on a block or a bundle; where nothing is refused, the facts and rows in force after it and the report so far.
#[derive(Clone, Copy)]
pub struct Walked {
    pub verdict: Result<(), Refusal>,
    pub facts: FactSet,
    pub rows: Rows,
    pub report: Report,
}

// The end of a bundle with its head at `head`: all declared bounds in force must be shown.
fn end_bundle(
    seen: Seen,
    head: usize,
    facts: FactSet,
    rows: Rows,
    report: Report,
    known: KnownBounds,
) -> Walked
    ensures { Passes (bounds_at head (unshown (seen_as seen) facts known.each)) (state_of facts rows.each) report.words result }
{
    Walked {
        verdict: check_known(seen, facts, known, head),
        facts,
        rows,
        report,
    }
}

// The bundle of the `count` statements after its head; its statements are cut short at the first that is of another kind, which the layout refuses.
pub fn walk_bundle(
    table: &[i32],
    sections: Sections,
    frame: Frame,
    force: Force,
    head: usize,
    count: usize,
    given: FactSet,
    reported: Report,
) -> Walked
    requires { Measured (environment_of table.now sections) × (head < 2 ^ 40) × Framed (environment_of table.now sections) frame
        × Forced (environment_of table.now sections) force.rows.each force }
    ensures { WalksBundle (environment_of table.now sections) head (simples count table.now sections (head + 1))
        (state_of given force.rows.each) (in_force (environment_of table.now sections) force.rows.each).declared
        reported.words result }
{
    let sizes = frame.sizes;
    let spans = frame.spans;
    let mut rows = force.rows;
    let mut seen = force.seen;
    let declared = seen.declared;
    let mut known = KnownBounds { each: declared };
    let mut facts = given;
    let mut report = reported;
    let mut at = head + 1;
    let mut left = count;
    while left > 0 {
        let got = read_due(table, sections, at);
        let Some(statement) = got else {
            break;
        };
        let Statement::Plain(simple) = statement else {
            break;
        };
        let next = at + 1;
        let fewer = left - 1;
        let declares = declares_of(simple);
        match declares {
            Some(Declaration { pointer, row }) => {
                let verdict = check_row(table, sections, facts, known, pointer, row, at);
                let Ok(()) = verdict else {
                    return Walked {
                        verdict,
                        facts,
                        rows,
                        report,
                    };
                };
                rows = with_row(rows, pointer, row);
                seen = seen_in(table, sections, rows);
                let each = known.each;
                known = bounds_after(Effect::Keep, KnownBounds { each });
                at = next;
                left = fewer;
            }
            None => {
                if is_access(simple) {
                    if !access_shown(seen, facts, known, simple) {
                        return Walked {
                            verdict: Err(Refusal::BundleAccess(at)),
                            facts,
                            rows,
                            report,
                        };
                    }
                    let safe = access_safe(seen, facts, simple);
                    report = mark_if(report, at, safe);
                }
                let answers = answer(facts, ask_statement(simple));
                let plan = plan_statement(sizes, spans, simple, answers);
                let effect = plan.effect;
                known = bounds_after(effect, known);
                facts = facts.after(plan.change);
                at = next;
                left = fewer;
            }
        }
    }
    end_bundle(seen, head, facts, rows, report, known)
}
