// What holds of a book after any history of edits, notices, asks and reports: no code.
// Start at specs/Claims.antt; the histories are in specs/History.antt.
#![tactic(auto)]
