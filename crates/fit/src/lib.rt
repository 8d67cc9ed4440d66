// What fits and what is accepted: the definitions, and what is proved of them. There is no code.

#![tactic(auto)]
