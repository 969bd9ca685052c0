// The row of a text, once assembled, shows the lines of the language: theorems only, in proofs/.
#![tactic(auto)]
