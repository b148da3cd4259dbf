// The rule of the distance of two points, and its laws. There is no code here: specs/ has the rule, proofs/ what follows from it.
#![tactic(auto)]
