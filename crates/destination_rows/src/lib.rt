// The destination node's rows as data, and that the laws and the papers leave no other; no functions.
#![tactic(auto)]
