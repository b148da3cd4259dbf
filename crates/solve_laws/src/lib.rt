// Laws of a solve that no code of it needs. There is no code here: proofs/ has them.
#![tactic(auto)]
