// What a batch of descriptions does when it is run: definitions only, in specs/. The code of the layers above equals them.
#![tactic(auto)]
