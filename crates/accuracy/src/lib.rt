// How far an estimate of an accepted histogram is from the true count: what is claimed, and its proof. There is no code.

#![tactic(auto)]
