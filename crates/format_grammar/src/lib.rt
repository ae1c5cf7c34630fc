// The grammar of formats, and the outcome of the format check. The definitions and theorems are in specs/ and proofs/.
#![tactic(auto)]

// How many levels of groups may open.
pub const LEVELS: usize = 4;
