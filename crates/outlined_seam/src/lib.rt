// How far apart the points of a seam can be on a door with an outline: the statement in specs/, the proof in proofs/.
// There is no code.
#![tactic(auto)]
