// The names of a text's machine are words of the text, and its head and sheet have their places: theorems only, in proofs/.
#![tactic(auto)]
