// Chains of facts, in the paper's words (specs): what is known, shown and contradictory; that the fact store is exact for every history of its operations;
// and that what is true of the variables' values stays true of a fact set.
#![tactic(auto)]

pub mod shown; // shown.rt: what a fact set shows
