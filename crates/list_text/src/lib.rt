// List text: one element a line.
#![tactic(auto)]

pub mod digits;
mod elements;
pub mod lines;
mod numbers;
pub mod read;
