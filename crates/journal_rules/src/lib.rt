// What replaying a journal comes to: the definitions, and what is proved of them. There is no code.

#![tactic(auto)]
