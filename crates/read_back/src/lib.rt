// 'Stars and reading back' of the rules, stated in specs/ and proved in proofs/: it has no code.
#![tactic(auto)]
