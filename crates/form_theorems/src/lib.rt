// What a reading call leaves that answers with a machine is well formed, and its form is the text's: theorems only, in proofs/.
#![tactic(auto)]
