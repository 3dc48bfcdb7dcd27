// How far refined nets are from the exact spline, and between which values they stay: statements in specs/, proofs in
// proofs/. There is no code.
#![tactic(auto)]
