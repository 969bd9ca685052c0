// Every listing has room in the row that crate listing has for it: theorems only, in proofs/.
#![tactic(auto)]
