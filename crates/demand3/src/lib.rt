// Demand 3, of what an accepted `draw` and an accepted `splice` leave: stated in specs/Demand3, proved in proofs/Theorem.
#![tactic(auto)]
