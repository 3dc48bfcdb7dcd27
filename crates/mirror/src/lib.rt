// Mirror images: a net with coordinates negated gives results with these coordinates negated. Definitions and
// statements in specs/, and what follows from them in proofs/. There is no code.
#![tactic(auto)]
