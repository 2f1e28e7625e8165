// The cases that the paper marks as proved, of all layers, as one statement over one list: specs/Paper and proofs/Proved.
#![tactic(auto)]
