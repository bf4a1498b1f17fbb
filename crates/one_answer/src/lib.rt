// That the contract of every public function leaves one possible answer: what that means, the law, and a theorem for each function. This
// crate has no functions, and stands above the others, so that it adds nothing to a check of theirs.
#![tactic(auto)]
