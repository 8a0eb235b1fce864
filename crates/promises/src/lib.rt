// What the promises of the calls say together stands in proofs/. There is no code.
#![tactic(auto)]
