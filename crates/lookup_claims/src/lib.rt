// What is claimed of the lookup beyond its promise: no code.
// Start at specs/Claims.antt; the lookup and its promise are in `lookup`.
#![tactic(auto)]
