// How Threshdune writes a definition. There is no code here: specs/ has the definitions, proofs/ their laws.
#![tactic(auto)]
