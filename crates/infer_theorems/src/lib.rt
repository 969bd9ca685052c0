// The sections that the inference stores are those of the language's machine: theorems only, in proofs/.
#![tactic(auto)]
