// Sections of the sheet: comments and rules, from the tokens in a row of words whose lines have entries.
#![tactic(auto)]

pub mod comments;
pub mod expand;
pub mod lengths;
pub mod put;
pub mod rules;
pub mod wheels;
