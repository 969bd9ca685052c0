// The sections of a sheet, from the head's counts.
#![tactic(auto)]

ghost use Rattle.std.specs.Prelude.{◌≡◌};
ghost use Rattle.sheet_view.specs.Sections.{sigma_from, gamma_from, finals_from, header_from, trailing_from, rules_from};

use crate::after;
use machine::Counts;
use sheet_layout::{PLACE_WORDS, STATE_WORDS, SYMBOL_WORDS};

// How many members each section has, and the words: each section's words are followed by those of the next ones.
#[derive(Clone, Copy)]
pub struct Sections<'a> {
    pub counts: Counts,
    pub states: &'a [u32],
}

impl<'a> Sections<'a> {
    // The words of Σ and of what follows.
    pub fn sigma(&self) -> &'a [u32]
        ensures { result.now ≡ sigma_from self.now.counts self.now.states.now }
    {
        after(self.states, STATE_WORDS * self.counts.states as usize)
    }

    // The words of Γ and of what follows.
    pub fn gamma(&self) -> &'a [u32]
        ensures { result.now ≡ gamma_from self.now.counts self.now.states.now }
    {
        after(self.sigma(), SYMBOL_WORDS * self.counts.sigma as usize)
    }

    // The words of the final states as they are listed, and of what follows.
    pub fn finals(&self) -> &'a [u32]
        ensures { result.now ≡ finals_from self.now.counts self.now.states.now }
    {
        after(self.gamma(), SYMBOL_WORDS * self.counts.gamma as usize)
    }

    // The words of the header's comments and of what follows.
    pub fn header(&self) -> &'a [u32]
        ensures { result.now ≡ header_from self.now.counts self.now.states.now }
    {
        after(self.finals(), PLACE_WORDS * self.counts.finals as usize)
    }

    // The words of the trailing comments and of what follows.
    pub fn trailing(&self) -> &'a [u32]
        ensures { result.now ≡ trailing_from self.now.counts self.now.states.now }
    {
        after(self.header(), PLACE_WORDS * self.counts.header as usize)
    }

    // The words of the rules.
    pub fn rules(&self) -> &'a [u32]
        ensures { result.now ≡ rules_from self.now.counts self.now.states.now }
    {
        after(self.trailing(), PLACE_WORDS * self.counts.trailing as usize)
    }
}
