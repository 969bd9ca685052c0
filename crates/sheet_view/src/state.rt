// A state of the sheet.
#![tactic(auto)]

ghost use Rattle.std.specs.Prelude.{◌≡◌, ◌+◌, ◌*◌, eqb};
ghost use Rattle.language.specs.Agreement.{at, place_at};

use crate::{place_at, word};
use machine::Span;
use sheet_layout::{FINAL, NAME, STATE_WORDS};

// A state of the sheet: where its name stands, and whether it is final.
#[derive(Clone, Copy, Debug, PartialEq, Eq)]
pub struct State {
    pub name: Span,
    pub is_final: bool,
}

// The i-th state of a section, whose words are these; one that the words have no room for has 0 for what it lacks.
pub fn state_at(states: &[u32], i: u32) -> State
    ensures { (result.name ≡ place_at states.now (3 * i))
        × (result.is_final ≡ eqb (at states.now (3 * i + 2)) 1) }
{
    let first = STATE_WORDS * i as usize;
    State {
        name: place_at(states, first + NAME),
        is_final: word(states, first + FINAL) == 1,
    }
}
