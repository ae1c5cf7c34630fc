// The marked examples of the rules: definitions and one theorem, no code.
#![tactic(auto)]
