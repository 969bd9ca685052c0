// What a description means: definitions only, in specs/. The code of the layers above equals them.
#![tactic(auto)]
