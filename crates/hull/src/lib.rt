// Demand 3 (docs/RULES.md): an answered point lies in the hull of its span's four control points, and a published point is never refused. There is no code
// here: specs/ has the words of it, proofs/ the two theorems about the definition that evaluation's contract cites.
#![tactic(auto)]
