// The rules' starred numbers. There is no code here: proofs/ has them, each a theorem about the definitions, by computing them.
#![tactic(auto)]
