#![tactic(auto)]

// What exchanging two neighbouring records that may trade places does to the ticks in which instructions retire, with
// its proof; no code.
