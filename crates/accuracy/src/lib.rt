#![tactic(auto)]

// The accuracy rule, RULES 15.3 to 15.8: claims about the definitions of `pipeline`, and no code.
