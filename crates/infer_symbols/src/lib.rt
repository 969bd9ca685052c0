// Inference of symbols (the source's spec.rs, `infer`): the blank, Σ and Γ, from the tokens in
// a row of words whose lines have entries.
#![tactic(auto)]

pub mod codes;
pub mod glyphs;
pub mod input;
pub mod symbols;
