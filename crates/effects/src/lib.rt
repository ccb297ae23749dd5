// What a condition and a statement of kinds 1 to 10 and 14 do to the facts, planned as a change of the fact set, and what the statement does to known bounds.
// No function here takes a fact set: the caller asks the questions of a plan (module asked), hands over the answers, and makes the change.
#![tactic(auto)]

pub mod loops; // loops.rt: the variables that a loop's body assigns are dropped before the loop
pub mod entries; // entries.rt: the entries of a loop: asked of the facts, and assumed at its head
pub mod asked; // asked.rt: what the plan for a condition or a statement has to know of the facts: two questions

ghost use Rattle.std.specs.Prelude.{cond, ◌≡◌, [], ◌^◌, ◌<◌, eqb};
ghost use Rattle.sums.specs.Numbers.{bias};
ghost use Rattle.statements.specs.declared.Simple.TheVariants.{AddConstant, PointerOffset};
ghost use Rattle.rules.specs.Stored.{positive};
ghost use Rattle.rules.specs.Ranges.{InRange};
ghost use Rattle.facts.specs.Store.{added, dropped, ranged};
ghost use Rattle.facts.specs.declared.FactSet.{FactSet};
ghost use Rattle.effects.specs.Applied.{applied, Makes, Adds, Assumes, Does, Plans};

use changes::{Answers, Change, Fact, adding, equating, no_fact, ranging, shifting};
use conditions::Condition;
use rules::Effect;
use rules::lookups::{length_at, size_at};
use statements::Simple;
use sums::{BIAS, MAX_VALUE, ZERO};

// What a statement does to the facts and to known bounds.
#[derive(Clone, Copy)]
pub struct Plan {
    pub change: Change,
    pub effect: Effect,
}

// The changes below say in their contracts what they make of any facts.

// Nothing at all.
fn keep() -> Change
    ensures { Makes result (λ f. f) }
{
    adding(no_fact(), no_fact())
}

// x <= y + k
fn one(x: usize, y: usize, k: u64) -> Change
    ensures { Makes result (λ f. added f x y k) }
{
    adding(Fact { x, y, k }, no_fact())
}

// Drops x; then low <= x <= high.
fn range(x: usize, low: u32, high: u32) -> Change
    ensures { Makes result (λ f. ranged f x low high) }
{
    ranging(x, low, high)
}

// Drops x.
fn forget(x: usize) -> Change
    ensures { Makes result (λ f. dropped f x) }
{
    ranging(x, 0, MAX_VALUE)
}

// x <= y + k, where it is told so.
fn fact_if(told: bool, x: usize, y: usize, k: u64) -> Fact
    ensures { Adds result (λ f. cond told (added f x y k) f) }
{
    if told {
        return Fact { x, y, k };
    }
    no_fact()
}

// The facts that a condition gives: left RELATION right + offset; the answers tell whether left <= right + offset and right + offset <= left are shown.
// Not inlined: the checker's walk would hold its temporaries once for each depth.
#[inline(never)]
pub fn assume(condition: Condition, answers: Answers) -> Change
    requires { condition.offset < 2 ^ 32 }
    ensures { Assumes condition answers result }
{
    let relation = condition.relation;
    let x = condition.left;
    let y = condition.right;
    let k = condition.offset;
    match relation {
        0 => one(x, y, BIAS + k - 1),
        1 => one(y, x, BIAS - k),
        2 => one(y, x, BIAS - k - 1),
        3 => one(x, y, BIAS + k),
        4 => adding(
            Fact { x, y, k: BIAS + k },
            Fact {
                x: y,
                y: x,
                k: BIAS - k,
            },
        ),
        _ => adding(
            fact_if(answers.there, x, y, BIAS + k - 1),
            fact_if(answers.back, y, x, BIAS - k - 1),
        ),
    }
}

// x := y + k; the answers tell whether y + k is in range, and a plain copy always counts as shown.
fn add_constant(x: usize, y: usize, k: u64, answers: Answers) -> Plan
    requires { (k < 2 ^ 34) × (y < 16) }
    ensures { Plans [] [] (AddConstant x y k) answers result }
{
    let forgotten = Effect::Forget { target: x };
    let fits = (k == BIAS) | (answers.there & answers.back);
    if !fits {
        return Plan {
            change: forget(x),
            effect: forgotten,
        };
    }
    if x == y {
        return Plan {
            change: shifting(x, k, no_fact()),
            effect: Effect::Shift {
                target: x,
                constant: k,
            },
        };
    }
    Plan {
        change: equating(x, y, k, no_fact()),
        effect: forgotten,
    }
}

// p >= 1, which p := q + k gives unless k is 0.
fn above_zero(p: usize, k: u64) -> Fact
    ensures { Adds result (λ f. cond (eqb k bias) f (positive f p)) }
{
    if k == BIAS {
        return no_fact();
    }
    Fact {
        x: ZERO,
        y: p,
        k: BIAS - 1,
    }
}

// p := q + k
fn add_offset(p: usize, q: usize, k: u64) -> Plan
    requires { (k < 2 ^ 34) × (q < 16) }
    ensures { (f : FactSet) → Does result f (applied [] [] f (PointerOffset p q k)) }
{
    let third = above_zero(p, k);
    if p == q {
        return Plan {
            change: shifting(p, k, third),
            effect: Effect::Shift {
                target: p,
                constant: k,
            },
        };
    }
    Plan {
        change: equating(p, q, k, third),
        effect: Effect::Copy {
            target: p,
            source: q,
        },
    }
}

// What p := q + i does to known bounds: those of q are copied, unless q is p itself.
fn index_effect(p: usize, q: usize) -> Effect
    ensures { result ≡ cond (eqb p q) (Effect.Forget p) (Effect.Copy p q) }
{
    if p == q {
        return Effect::Forget { target: p };
    }
    Effect::Copy {
        target: p,
        source: q,
    }
}

// A statement of kinds 1 to 10 and 14, with the answers to what it asks.
pub fn plan_statement(sizes: [u64; 16], spans: [u64; 16], simple: Simple, answers: Answers) -> Plan
    requires { InRange simple }
    ensures { Plans sizes spans simple answers result }
{
    match simple {
        Simple::Literal { target, value } => Plan {
            change: range(target, value as u32, value as u32),
            effect: Effect::Forget { target },
        },
        Simple::AddConstant {
            target,
            source,
            constant,
        } => add_constant(target, source, constant, answers),
        Simple::Arithmetic { target, .. } | Simple::Load { target, .. } => Plan {
            change: forget(target),
            effect: Effect::Forget { target },
        },
        Simple::Null { target } => Plan {
            change: range(target, 0, 0),
            effect: Effect::Forget { target },
        },
        Simple::Address { target, object } => Plan {
            change: range(target, 1, MAX_VALUE),
            effect: Effect::Object {
                target,
                size: size_at(sizes, target),
                length: length_at(spans, object),
            },
        },
        Simple::PointerOffset {
            target,
            source,
            constant,
        } => add_offset(target, source, constant),
        Simple::PointerIndex { target, source, .. } => Plan {
            change: range(target, 1, MAX_VALUE),
            effect: index_effect(target, source),
        },
        Simple::Store { .. } | Simple::Declare { .. } => Plan {
            change: keep(),
            effect: Effect::Keep,
        },
        Simple::Check { condition } => Plan {
            change: assume(condition, answers),
            effect: Effect::Keep,
        },
    }
}
