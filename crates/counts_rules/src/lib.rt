// How counts are written small: the definitions and what is proved of them. There is no code.

#![tactic(auto)]
