// A list with another put into it, from a place on: what every writer into a lent buffer promises. No code.
// Start at specs/Placed.antt; its laws are in proofs/PlacedLaws.antt, and those of a loop in proofs/LeftLaws.antt.
#![tactic(auto)]
