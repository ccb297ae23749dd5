// The walk over the statements.
ghost use Rattle.std.specs.Prelude.{◌≤◌, ◌<◌, ◌≡◌, ◌^◌, length};
ghost use Rattle.blocks.specs.Tree.{parse};
ghost use Rattle.rules.specs.Verdict.{environment_of};
ghost use Rattle.listed.specs.Entries.{entries_of};
ghost use Rattle.rules.specs.Ranges.{Measured};
ghost use Rattle.rules.specs.Stored.{entry_facts};
ghost use Rattle.declared.specs.Force.{state_of, Framed, Forced, DeclaresRow};
ghost use Rattle.declared.specs.Callee.{callees_in};
ghost use Rattle.checker.specs.Walk.{InPlace, Walks};

use answers::refusals::Refusal;
use bounds::touched::touches;
use bundles::{Walked, walk_bundle};
use chains::shown::answer;
use conditions::negated;
use declared::calls::{check_call, drop_result};
use declared::force::{Force, Frame, declare_row, force_of, same_rows};
use declared::{Declaration, access_safe, check_effect, declares_of, is_access};
use effects::asked::{ask_condition, ask_statement};
use effects::entries::{assume_entries, check_entries};
use effects::loops::lose;
use effects::{assume, plan_statement};
use facts::FactSet;
use reader::read_due;
use reports::{Report, mark_if};
use rules::lookups::Rows;
use statements::Statement;
use words::sections::Sections;

// `declare_row` with what is in force changed in place, so that its answer, which is large, does not stand on the stack once for each depth of the walk.
#[inline(never)]
fn declare_here(
    table: &[i32],
    sections: Sections,
    force: &mut Force,
    facts: FactSet,
    pointer: usize,
    row: usize,
    at: usize,
) -> Result<(), Refusal>
    requires { Forced (environment_of table.now sections) force.old.rows.each force.old × (pointer < 16) × (row < 64) }
    ensures { DeclaresRow (environment_of table.now sections) facts force.old.rows.each pointer row at (record { verdict = result; force = force.new }) }
{
    let declared = declare_row(table, sections, *force, facts, pointer, row, at);
    *force = declared.force;
    declared.verdict
}

// `force_of` in place.
#[inline(never)]
fn put_in_force(table: &[i32], sections: Sections, rows: Rows, force: &mut Force)
    ensures { Forced (environment_of table.now sections) rows.each force.new }
{
    *force = force_of(table, sections, rows);
}

// `assume_entries` on the facts of `now`: a local is handed over where it stands, and a part of it as a copy.
#[inline(never)]
fn assume_within(listed: &[i32], at: usize, now: Walked) -> FactSet
    requires { (length listed.now ≤ 1024) × (at < 2 ^ 40) }
    ensures { result ≡ entry_facts (entries_of listed.now at) now.facts }
{
    assume_entries(listed, at, now.facts)
}

// The block of `first` to `end` - 1, which cause 6 does not refuse, from the facts `given`, what is in force, `begun`, and the report so far. `listed` is the
// list of loop facts. `allowed` is at least the number of the block's statements; it falls at each. `callees` are the lengths of the tables that
// may be called: they stand in `words`, one after the other.
// The fact set is changed in place by its own methods alone: a function in between would copy it in and out. Its frame stands on the stack once for each depth,
// and each local has a place of its own there: `now` is the state of this block, `side` what a nested one is walked from and then what it leaves, `next`
// the facts that a call answers; nothing else but `force` is large. What would be copied for nothing is left out: `side` has no value before the first
// nested block, and an empty block is not walked.
pub fn walk(
    table: &[i32],
    sections: Sections,
    listed: &[i32],
    frame: Frame,
    begun: Force,
    first: usize,
    end: usize,
    allowed: usize,
    given: FactSet,
    reported: Report,
    words: &[i32],
    callees: &[u32],
) -> Walked
    requires { Measured (environment_of table.now sections) × Framed (environment_of table.now sections) frame
        × Forced (environment_of table.now sections) begun.rows.each begun
        × InPlace table.now sections first (parse allowed table.now sections first end) × (length listed.now ≤ 1024) }
    ensures { Walks (environment_of table.now sections) listed.now (callees_in words.now callees.now)
        (parse allowed table.now sections first end) (state_of given begun.rows.each) reported.words result }
{
    let pointers = frame.pointers;
    let mut at = first;
    let mut left = allowed;
    let mut force = begun;
    let begun_rows = begun.rows;
    let mut now = Walked {
        verdict: Ok(()),
        facts: given,
        rows: begun_rows,
        report: reported,
    };
    let mut side: Walked;
    let mut next: FactSet;
    while left > 0 {
        if at >= end {
            break;
        }
        left -= 1;
        let rows = force.rows;
        let report = now.report;
        let got = read_due(table, sections, at);
        let Some(statement) = got else {
            let facts = now.facts;
            return Walked {
                verdict: Err(Refusal::StatementRecord(at)),
                facts,
                rows,
                report,
            };
        };
        let inner = at + 1;
        match statement {
            Statement::Plain(simple) => {
                let declares = declares_of(simple);
                match declares {
                    Some(Declaration { pointer, row }) => {
                        let verdict = declare_here(
                            table, sections, &mut force, now.facts, pointer, row, at,
                        );
                        let Ok(()) = verdict else {
                            let facts = now.facts;
                            return Walked {
                                verdict,
                                facts,
                                rows,
                                report,
                            };
                        };
                        at = inner;
                    }
                    None => {
                        if is_access(simple) {
                            let safe = access_safe(force.seen, now.facts, simple);
                            now.report = mark_if(report, at, safe);
                        }
                        let answers = answer(now.facts, ask_statement(simple));
                        let plan = plan_statement(frame.sizes, frame.spans, simple, answers);
                        let effect = plan.effect;
                        next = now.facts.after(plan.change);
                        now.facts = next;
                        if touches(force.named, pointers, effect) {
                            let verdict = check_effect(force.seen, now.facts, effect, at);
                            let Ok(()) = verdict else {
                                let facts = now.facts;
                                return Walked {
                                    verdict,
                                    facts,
                                    rows,
                                    report,
                                };
                            };
                        }
                        at = inner;
                    }
                }
            }
            Statement::If {
                condition,
                then_count,
                else_count,
            } => {
                let middle = inner + then_count;
                let rest = middle + else_count;
                let answers = answer(now.facts, ask_condition(condition));
                next = now.facts.after(assume(condition, answers));
                side = Walked {
                    verdict: Ok(()),
                    facts: next,
                    rows,
                    report,
                };
                if inner < middle {
                    side = walk(
                        table, sections, listed, frame, force, inner, middle, left, side.facts,
                        now.report, words, callees,
                    );
                }
                let then_verdict = side.verdict;
                let Ok(()) = then_verdict else {
                    return side;
                };
                next = now.facts.after(assume(negated(condition), answers));
                now.facts = next;
                now.rows = rows;
                let then_report = side.report;
                now.report = then_report;
                if middle < rest {
                    now = walk(
                        table,
                        sections,
                        listed,
                        frame,
                        force,
                        middle,
                        rest,
                        left,
                        now.facts,
                        then_report,
                        words,
                        callees,
                    );
                    let other_verdict = now.verdict;
                    let Ok(()) = other_verdict else {
                        return now;
                    };
                }
                let then_rows = side.rows;
                if !same_rows(then_rows, now.rows) {
                    let facts = now.facts;
                    return Walked {
                        verdict: Err(Refusal::RowsDiffer(at)),
                        facts,
                        rows,
                        report,
                    };
                }
                next = side.facts.join(now.facts, pointers);
                now.facts = next;
                if !same_rows(rows, then_rows) {
                    put_in_force(table, sections, then_rows, &mut force);
                }
                at = rest;
            }
            Statement::While { condition, count } => {
                let rest = inner + count;
                let before = check_entries(listed, at, now.facts);
                let Ok(()) = before else {
                    let facts = now.facts;
                    return Walked {
                        verdict: before,
                        facts,
                        rows,
                        report,
                    };
                };
                next = lose(table, sections, inner, count, now.facts);
                now.facts = next;
                if 0 < listed.len() {
                    next = assume_within(listed, at, now);
                    now.facts = next;
                }
                let head = answer(now.facts, ask_condition(condition));
                next = now.facts.after(assume(condition, head));
                side = Walked {
                    verdict: Ok(()),
                    facts: next,
                    rows,
                    report,
                };
                side = walk(
                    table, sections, listed, frame, force, inner, rest, left, side.facts, report,
                    words, callees,
                );
                let body_verdict = side.verdict;
                let Ok(()) = body_verdict else {
                    return side;
                };
                let again = check_entries(listed, at, side.facts);
                let Ok(()) = again else {
                    let facts = now.facts;
                    return Walked {
                        verdict: again,
                        facts,
                        rows,
                        report,
                    };
                };
                if !same_rows(rows, side.rows) {
                    let facts = now.facts;
                    return Walked {
                        verdict: Err(Refusal::RowsDiffer(at)),
                        facts,
                        rows,
                        report,
                    };
                }
                let otherwise = assume(negated(condition), head);
                next = now.facts.after(otherwise);
                now.facts = next;
                let body_report = side.report;
                now.report = body_report;
                at = rest;
            }
            Statement::Bundle { count } => {
                let rest = inner + count;
                next = now.facts;
                now = walk_bundle(table, sections, frame, force, at, count, next, report);
                let held_verdict = now.verdict;
                let Ok(()) = held_verdict else {
                    return now;
                };
                let held_rows = now.rows;
                if !same_rows(rows, held_rows) {
                    put_in_force(table, sections, held_rows, &mut force);
                }
                at = rest;
            }
            Statement::Call(call) => {
                let verdict = check_call(
                    table, sections, force.seen, now.facts, words, callees, call, at,
                );
                let Ok(()) = verdict else {
                    let facts = now.facts;
                    return Walked {
                        verdict,
                        facts,
                        rows,
                        report,
                    };
                };
                next = drop_result(now.facts, call);
                now.facts = next;
                at = inner;
            }
        }
    }
    let facts = now.facts;
    let rows = force.rows;
    let report = now.report;
    Walked {
        verdict: Ok(()),
        facts,
        rows,
        report,
    }
}
