// What salvage promises of the sheets that it writes: stated in specs/Promises, proved in proofs/Theorem.
#![tactic(auto)]
