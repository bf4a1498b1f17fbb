// The promises over whole runs of the control, once for any end of a call and then at the source and the destination: late setups change
// nothing, every connection number is accounted for, and what is shut out. This crate has no functions: specs/ says the promises, proofs/
// why they hold. The controls that they speak of are those that the contracts of call_table name.
#![tactic(auto)]
