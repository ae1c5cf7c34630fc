// The rows before the walk, for writing and reading. The definitions and theorems are in specs/ and proofs/; this crate has no
// code.
#![tactic(auto)]
