// What the plan for a condition or a statement has to know of the facts: two questions.
ghost use Rattle.std.specs.Prelude.{◌≡◌, ◌^◌, ◌<◌};
ghost use Rattle.rules.specs.Ranges.{InRange};
ghost use Rattle.effects.specs.Asked.{nothing_asked, sum_asked, condition_asked, statement_asked};

use changes::Questions;
use conditions::Condition;
use statements::Simple;
use sums::{BIAS, ZERO, room_above};

// Nothing has to be known.
fn ask_nothing() -> Questions
    ensures { result ≡ nothing_asked }
{
    Questions {
        asked: false,
        chained: false,
        x: 0,
        y: 0,
        there: 0,
        back: 0,
    }
}

// 0 <= y + k, and y + k <= 4,294,967,295; of a plain copy nothing is asked.
fn ask_sum(y: usize, k: u64) -> Questions
    ensures { result ≡ sum_asked y k }
{
    Questions {
        asked: k != BIAS,
        chained: true,
        x: ZERO,
        y,
        there: k,
        back: room_above(k),
    }
}

// left <= right + offset, and right + offset <= left, where the condition is == or !=. So the negated condition asks the same.
pub fn ask_condition(condition: Condition) -> Questions
    requires { condition.offset < 2 ^ 32 }
    ensures { result ≡ condition_asked condition }
{
    let k = condition.offset;
    Questions {
        asked: condition.relation >= 4,
        chained: false,
        x: condition.left,
        y: condition.right,
        there: BIAS + k,
        back: BIAS - k,
    }
}

pub fn ask_statement(simple: Simple) -> Questions
    requires { InRange simple }
    ensures { result ≡ statement_asked simple }
{
    match simple {
        Simple::AddConstant {
            target: _,
            source,
            constant,
        } => ask_sum(source, constant),
        Simple::Check { condition } => ask_condition(condition),
        _ => ask_nothing(),
    }
}
