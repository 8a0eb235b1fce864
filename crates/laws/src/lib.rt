// What follows from the definition stands in proofs/, and a word for it that promises use in specs/. There is no code.
#![tactic(auto)]
