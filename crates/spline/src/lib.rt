// The exact spline: definitions in specs/, and what follows from them in proofs/. There is no code.
#![tactic(auto)]
