// The shots on the bench, P1 to P14 (RULES, "Shots on the bench"): no code. Start at specs/Shots.antt.
#![tactic(auto)]
