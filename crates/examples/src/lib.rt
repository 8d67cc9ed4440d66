// The starred examples of document 01, as one claim about the definitions. There is no code.

#![tactic(auto)]
