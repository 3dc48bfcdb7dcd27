// The quadratic pieces of the exact spline that meet a vertex, and their derivatives there: definitions in specs/, and
// what follows from them in proofs/. There is no code.
#![tactic(auto)]
