// Of what an accepted `contour` leaves: demand 3, stated in specs/Demand3 and proved in proofs/Theorem; and its points, in specs/Points, proofs/Equal and proofs/Plain.
#![tactic(auto)]
