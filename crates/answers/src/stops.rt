// How a run ends, and the six named checks, each with the statement at which it fails; the paper's number of each.
ghost use Rattle.std.specs.Prelude.{◌≡◌};
ghost use Rattle.answers.specs.Answers.{check_number, check_statement};

use crate::refusals::Refusal;

#[derive(Clone, Copy, Debug, PartialEq, Eq)]
pub enum Check {
    ConditionFalse(usize),
    NullAccess(usize),
    OutOfBounds(usize),
    NullArithmetic(usize),
    AddressRange(usize),
    Terminator(usize),
}

// A run's answer: refused, done, spent, or stopped, with the check that failed.
#[derive(Clone, Copy, Debug, PartialEq, Eq)]
pub enum Outcome {
    Refused(Refusal),
    Done { steps: u32 },
    Spent { steps: u32, statement: usize },
    Stopped { steps: u32, check: Check },
}

impl Check {
    pub fn number(self) -> u32
        ensures { result ≡ check_number self }
    {
        match self {
            Check::ConditionFalse(_) => 1,
            Check::NullAccess(_) => 2,
            Check::OutOfBounds(_) => 3,
            Check::NullArithmetic(_) => 4,
            Check::AddressRange(_) => 5,
            Check::Terminator(_) => 6,
        }
    }

    // The statement at which the check fails.
    pub fn statement(self) -> usize
        ensures { result ≡ check_statement self }
    {
        match self {
            Check::ConditionFalse(statement)
            | Check::NullAccess(statement)
            | Check::OutOfBounds(statement)
            | Check::NullArithmetic(statement)
            | Check::AddressRange(statement)
            | Check::Terminator(statement) => statement,
        }
    }
}
