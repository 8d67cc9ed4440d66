// Definitions and laws that several crates share. There is no code.

#![tactic(auto)]
