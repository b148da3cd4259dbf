// The cubic B-spline basis on a span, with its derivatives: what it is, and the laws that the proofs of its code cite. There is no code here.
#![tactic(auto)]
