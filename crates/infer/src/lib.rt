// Inference of states (the source's spec.rs, `infer`) from the tokens in a row of words whose lines have entries.
#![tactic(auto)]

pub mod finals;
pub mod names;
pub mod states;
