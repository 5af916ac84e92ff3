// What is claimed of the calls for C: no code.
// Start at specs/Claims.antt; the calls' promises are llobatelh's, specs/Calls.antt.
#![tactic(auto)]
