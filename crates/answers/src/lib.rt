// What a check and a run answer: the causes of refusal, a run's outcomes, the named checks, each with the paper's numbers. It stands on no other crate.
#![tactic(auto)]

pub mod refusals; // refusals.rt: the causes of refusal, and the paper's number, place and pointer of each
pub mod stops; // stops.rt: how a run ends, and the six named checks, each with the statement at which it fails; the paper's number of each
