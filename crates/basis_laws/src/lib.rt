// What the basis means in exact arithmetic. There is no code here: proofs/ has the laws.
#![tactic(auto)]
