// Files and meshes, there and back, of what `write_stl` and `read_stl` leave: stated in specs/Returns, proved in proofs/Theorem.
#![tactic(auto)]
