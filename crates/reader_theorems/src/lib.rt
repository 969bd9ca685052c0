// Theorems: what the row of a text holds, as words of the sheet and as a head, is the language's machine.
#![tactic(auto)]
