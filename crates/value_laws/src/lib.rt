// A curve with partials has the values of the plain one. There is no code here: proofs/ has the laws.
#![tactic(auto)]
