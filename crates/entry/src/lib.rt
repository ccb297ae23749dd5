// What is looked at before a run begins: causes 10 to 12 and 16.
#![tactic(auto)]

pub mod ends; // ends.rt: the ends of declared bounds, laid out for the run's loop
mod entry_bounds; // entry_bounds.rt: whether declared bounds are true at entry
mod entry; // entry.rt: causes 10 to 12 and 16

use answers::refusals::Refusal;
pub use entry::enter;
