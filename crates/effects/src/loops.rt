// The variables that a loop's body assigns are dropped before the loop.
ghost use Rattle.std.specs.Prelude.{◌≡◌, false, ◌+◌, ◌^◌, ◌<◌, get_or};
ghost use Rattle.rules.specs.Stored.{dropped_each, loop_facts};
ghost use Rattle.effects.specs.Marks.{target_of, targets_from, target_number, assigned_number, no_marks, marked};

use changes::ranging;
use facts::FactSet;
use reader::read_due;
use statements::{Simple, Statement};
use sums::MAX_VALUE;
use words::sections::Sections;

// The variable that a statement assigns, or 16 for none.
fn target_of(simple: Simple) -> usize
    ensures { result ≡ target_number simple }
{
    match simple {
        Simple::Literal { target, .. }
        | Simple::AddConstant { target, .. }
        | Simple::Arithmetic { target, .. }
        | Simple::Null { target }
        | Simple::Address { target, .. }
        | Simple::PointerOffset { target, .. }
        | Simple::PointerIndex { target, .. }
        | Simple::Load { target, .. } => target,
        Simple::Store { .. } | Simple::Check { .. } | Simple::Declare { .. } => 16,
    }
}

// The same of any statement: an if, a while and a bundle assign by the statements that follow them.
fn assigned_by(statement: Statement) -> usize
    ensures { result ≡ assigned_number statement }
{
    match statement {
        Statement::Plain(simple) => target_of(simple),
        Statement::Call(call) => call.result,
        Statement::If { .. } | Statement::While { .. } | Statement::Bundle { .. } => 16,
    }
}

// Which variables are assigned.
#[derive(Clone, Copy)]
struct Marks {
    pub each: [bool; 16],
}

// The marks with the variable that a statement assigns.
fn mark_target(mut marks: Marks, read: Option<Statement>) -> Marks
    ensures { result.each ≡ marked marks.each (target_of read) }
{
    let Some(statement) = read else {
        return marks;
    };
    let target = assigned_by(statement);
    if target < 16 {
        marks.each[target] = true;
    }
    marks
}

// The variables that the `count` statements from `first` on assign.
fn mark_targets(table: &[i32], sections: Sections, first: usize, count: usize) -> Marks
    requires { first + count < 2 ^ 40 }
    ensures { result.each ≡ marked no_marks (targets_from table.now sections first count) }
{
    let mut marks = Marks { each: [false; 16] };
    for at in first..first + count {
        marks = mark_target(marks, read_due(table, sections, at));
    }
    marks
}

// Each marked variable dropped: what `drop` does, without a function in between, which would copy the set once more.
fn drop_marked(mut facts: FactSet, marks: Marks) -> FactSet
    ensures { result ≡ dropped_each 16 (λ v. get_or marks.each v false) facts }
{
    for v in 0..16 {
        if marks.each[v] {
            facts = facts.after(ranging(v, 0, MAX_VALUE));
        }
    }
    facts
}

// The facts without the variables that the `count` statements from `first` on assign.
pub fn lose(
    table: &[i32],
    sections: Sections,
    first: usize,
    count: usize,
    facts: FactSet,
) -> FactSet
    requires { first + count < 2 ^ 40 }
    ensures { result ≡ loop_facts (targets_from table.now sections first count) facts }
{
    drop_marked(facts, mark_targets(table, sections, first, count))
}
