// A rule of the sheet.
#![tactic(auto)]

ghost use Rattle.std.specs.Prelude.{◌≡◌, take, drop};
ghost use Rattle.language.specs.Agreement.{at, dir_of};
ghost use Rattle.sheet_view.specs.Directions.{dir_in};
ghost use Rattle.sheet_view.specs.Rules.{length_of, from_of, to_of, line_of, comment_of, arity_of, leading_count_of};
ghost use Rattle.sheet_view.specs.Rules.{actions_from, leading_from, read_of, write_of, move_of};

use crate::direction::{Direction, direction_of};
use crate::{after, place_at, record_at, word};
use machine::Span;
use sheet_layout::{
    ACTION_WORDS, ACTIONS, ARITY, COMMENT, FROM, LEADING, LENGTH, LINE, MOVE, READ, TO, WRITE,
};

// A rule of the sheet, by the words of its record. What they lack is 0.
#[derive(Clone, Copy)]
pub struct Rule<'a> {
    pub words: &'a [u32],
}

// The rule that begins at an index.
pub fn rule_at(words: &[u32], i: usize) -> Rule<'_>
    ensures { result.words.now ≡ take (at words.now i) (drop i words.now) }
{
    Rule {
        words: record_at(words, i),
    }
}

impl<'a> Rule<'a> {
    // How many words it has. Behind them the next rule begins.
    pub fn length(&self) -> u32
        ensures { result ≡ length_of self.now.words.now }
    {
        word(self.words, LENGTH)
    }

    // Where the name of the state stands that it is for.
    pub fn from(&self) -> Span
        ensures { result ≡ from_of self.now.words.now }
    {
        place_at(self.words, FROM)
    }

    // Where the name of the state stands that it leads to.
    pub fn to(&self) -> Span
        ensures { result ≡ to_of self.now.words.now }
    {
        place_at(self.words, TO)
    }

    // Where its line stands.
    pub fn line(&self) -> Span
        ensures { result ≡ line_of self.now.words.now }
    {
        place_at(self.words, LINE)
    }

    // Where its own comment stands, or none.
    pub fn comment(&self) -> Span
        ensures { result ≡ comment_of self.now.words.now }
    {
        place_at(self.words, COMMENT)
    }

    // On how many tapes it acts.
    pub fn arity(&self) -> u32
        ensures { result ≡ arity_of self.now.words.now }
    {
        word(self.words, ARITY)
    }

    // How many comments lead it.
    pub fn leading_count(&self) -> u32
        ensures { result ≡ leading_count_of self.now.words.now }
    {
        word(self.words, LEADING)
    }

    // The words of its actions, and those of the comments that lead it.
    pub fn actions(&self) -> &'a [u32]
        ensures { result.now ≡ actions_from self.now.words.now }
    {
        after(self.words, ACTIONS)
    }

    // The words of the comments that lead it.
    pub fn leading(&self) -> &'a [u32]
        ensures { result.now ≡ leading_from self.now.words.now }
    {
        after(self.words, ACTIONS + ACTION_WORDS * self.arity() as usize)
    }

    // The code that it reads on a tape.
    pub fn read(&self, tape: u32) -> u32
        ensures { result ≡ read_of self.now.words.now tape }
    {
        word(self.words, ACTIONS + ACTION_WORDS * tape as usize + READ)
    }

    // The code that it writes on a tape.
    pub fn write(&self, tape: u32) -> u32
        ensures { result ≡ write_of self.now.words.now tape }
    {
        word(self.words, ACTIONS + ACTION_WORDS * tape as usize + WRITE)
    }

    // The direction in which it moves the head of a tape.
    pub fn direction(&self, tape: u32) -> Direction
        ensures { dir_in result ≡ dir_of (move_of self.now.words.now tape) }
    {
        direction_of(word(self.words, ACTIONS + ACTION_WORDS * tape as usize + MOVE))
    }
}
