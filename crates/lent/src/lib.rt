// Lists of records with keys, of any record type: what a scan of one finds (specs/), and the laws by which a loop over a lent slice of
// records gives what the scan of its whole list gives (proofs/). This crate has no functions and no word of telephony: a table's crate has
// the functions, and the check proves them over its own slices.
#![tactic(auto)]
