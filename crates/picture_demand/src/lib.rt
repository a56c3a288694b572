// Document 02, request Four: "Demand 3 holds for each component." No code: the theorem stands in proofs/EachComponent.antt.
#![tactic(auto)]
