// What is true of the definition stands in proofs/. There is no code.
#![tactic(auto)]
