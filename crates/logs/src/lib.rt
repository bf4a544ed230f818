#![tactic(auto)]

// What is claimed of a log that ticks in a row wrote: claims about the definitions of `cardlog` and `logging`, and no
// code.
