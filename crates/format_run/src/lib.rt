// The size of the items that entries hold, and the items met as a run of words.
#![tactic(auto)]

pub mod size;
pub mod unroll;
