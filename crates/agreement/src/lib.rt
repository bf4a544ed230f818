#![tactic(auto)]

// What is claimed of the player beside the runner, with its proof; no code.
