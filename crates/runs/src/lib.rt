// Runs of a control over a table of calls, for any end of a call: what late insertions leave as it is, and the account of connection
// numbers. This crate has no functions: it holds definitions, claims and theorems over an abstract end, which the source node, and a later
// one, put their own into.
#![tactic(auto)]
