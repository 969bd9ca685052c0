// All that the program `run` prints has room in the row that crate run_listing has for it: theorems only, in proofs/.
#![tactic(auto)]
