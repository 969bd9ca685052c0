// The search for the first rule that matches.
#![tactic(auto)]

ghost use Rattle.std.specs.Prelude.{◌≡◌, [], ◌∷◌, ◌<◌, ◌≤◌, length, drop, map};
ghost use Rattle.lexer.specs.Text.{same};
ghost use Rattle.language.specs.Agreement.{dir_of, characters_at};
ghost use Rattle.running.specs.Run.{due_in};
ghost use Rattle.running.specs.Batch.{content_of_text};
ghost use Rattle.sheet_view.specs.Rules.{from_of};
ghost use Rattle.runner_tapes.specs.Shown.{symbols_of, dirs_of};

use crate::firsts::{First, first_at};
use machine::Span;
use runner_tapes::{Moves, Symbols};
use sheet_layout::{ACTION_WORDS, ACTIONS, FROM, LENGTH, MOVE, READ, TO, WRITE};

// The second action of a record.
const SECOND: usize = ACTIONS + ACTION_WORDS;

// The third action of a record.
const THIRD: usize = SECOND + ACTION_WORDS;

// What is due in a state over some symbols: it is final, no rule matches, or the first rule that does, by the word at which its
// record begins.
#[derive(Clone, Copy, Debug, PartialEq, Eq)]
pub enum Due {
    Halted,
    Stuck,
    Applies(usize),
}

// The rules of a machine: its text; the words of the sheet from its first rule on, and where the last rule ends; its number of
// tapes; for each byte of the text the number of the name that starts there; for each number two words, the first rule of the
// state.
#[derive(Clone, Copy)]
pub struct Rules<'a> {
    pub text: &'a [u8],
    pub(crate) words: &'a [u32],
    pub(crate) end: usize,
    pub tapes: u8,
    pub(crate) numbers: &'a [u32],
    pub(crate) firsts: &'a [u32],
}

// What is known of a state: the place of its name, the name's number, and what the row of first rules says of it. Where it is
// kept from step to step, nothing is looked up while the state stays.
#[derive(Clone, Copy)]
pub struct Known {
    name: Span,
    number: u32,
    first: First,
}

impl<'a> Rules<'a> {
    ghost use Rattle.runner_rules.specs.Due.{record_at, rule_here, due_at};
    ghost use Rattle.runner_rules.specs.Rules.{RulesOf, RecordOf, Named, Knows, OnRule};
    ghost use Rattle.runner_rules.specs.Search.{HasActions, reads_of, is_match, Ahead, due_by, first_match};

    // What is known of the state whose name stands at a place.
    pub fn known(&self, name: Span) -> Known
        requires rules { RulesOf self.now }
        requires state { Named self.now name }
        ensures { Knows self.now name result }
    {
        let number = self.numbers[name.start as usize];
        Known {
            name,
            number,
            first: first_at(self.firsts, number as usize),
        }
    }

    // The same of the state behind one that is known, which is often that one.
    pub fn known_next(&self, before: Known, name: Span) -> Known
        requires rules { RulesOf self.now }
        requires known { Knows self.now before.name before }
        requires state { Named self.now name }
        ensures { Knows self.now name result }
    {
        if name.start != before.name.start {
            return self.known(name);
        }
        Known {
            name,
            number: before.number,
            first: before.first,
        }
    }

    // The words of a rule's record, and those behind it. They are read by their index and not through sheet_view's Rule, which
    // asks each time whether there is such a word.
    fn record(&self, at: usize) -> &'a [u32]
        requires { RecordOf self.now (record_at self.now at) }
        ensures words { result.now ≡ drop at self.now.words.now }
        ensures room { HasActions self.now result.now }
    {
        &self.words[at..]
    }

    // Whether the record at the front of some words reads these symbols.
    #[tactic(auto, using(crate::proofs::Compared::reads))]
    fn reads(&self, words: &[u32], symbols: Symbols) -> bool
        requires tapes { (1 ≤ self.now.tapes) × (self.now.tapes ≤ 3) }
        requires room { HasActions self.now words.now }
        ensures { result ≡ same (symbols_of self.now.tapes symbols) (reads_of self.now.tapes words.now) }
    {
        if words[ACTIONS + READ] != symbols.first {
            return false;
        }
        if self.tapes < 2 {
            return true;
        }
        if words[SECOND + READ] != symbols.second {
            return false;
        }
        if self.tapes < 3 {
            return true;
        }
        words[THIRD + READ] == symbols.third
    }

    // Whether the record at the front of some words is for a number, and reads these symbols.
    fn is_match(&self, words: &[u32], number: u32, symbols: Symbols) -> bool
        requires tapes { (1 ≤ self.now.tapes) × (self.now.tapes ≤ 3) }
        requires room { HasActions self.now words.now }
        requires inside { (from_of words.now).start < length self.now.numbers.now }
        ensures { result ≡ is_match self.now number (symbols_of self.now.tapes symbols) words.now }
    {
        self.reads(words, symbols) && self.numbers[words[FROM] as usize] == number
    }

    // The first rule from a word on, where a record begins, that is for a state and matches.
    fn find(&self, state: Known, from: usize, symbols: Symbols) -> Due
        requires rules { RulesOf self.now }
        requires known { Knows self.now state.name state }
        requires ahead { (Ahead self.now state.name (symbols_of self.now.tapes symbols) from)
            × (from < self.now.end) }
        ensures due { due_at self.now result
            ≡ due_by (first_match self.now state.name (symbols_of self.now.tapes symbols)) }
        ensures rule { OnRule self.now result }
    {
        let mut at = from;
        loop {
            let record = self.record(at);
            if self.is_match(record, state.number, symbols) {
                return Due::Applies(at);
            }
            at += record[LENGTH] as usize;
            if at >= self.end {
                return Due::Stuck;
            }
        }
    }

    // What is due in a state that is known.
    pub fn due_known(&self, state: Known, symbols: Symbols) -> Due
        requires rules { RulesOf self.now }
        requires known { Knows self.now state.name state }
        ensures due { due_at self.now result
            ≡ due_in (content_of_text self.now.text.now) (characters_at self.now.text.now state.name)
            (symbols_of self.now.tapes symbols) }
        ensures rule { OnRule self.now result }
    {
        match state.first {
            First::Final => Due::Halted,
            First::NoRule => Due::Stuck,
            First::At(first) => self.find(state, first, symbols),
        }
    }

    // The symbols that a rule writes.
    pub fn writes(&self, rule: usize) -> Symbols
        requires rules { RulesOf self.now }
        requires rule { RecordOf self.now (record_at self.now rule) }
        ensures { symbols_of self.now.tapes result ≡ map (λ a. a.write) (rule_here self.now rule).actions }
    {
        let record = self.record(rule);
        let first = record[ACTIONS + WRITE];
        if self.tapes < 2 {
            return Symbols {
                first,
                second: 0,
                third: 0,
            };
        }
        let second = record[SECOND + WRITE];
        if self.tapes < 3 {
            return Symbols {
                first,
                second,
                third: 0,
            };
        }
        Symbols {
            first,
            second,
            third: record[THIRD + WRITE],
        }
    }

    // The directions in which a rule moves the heads. They stay numbers, as the sheet has them: the branch that moves a head is
    // on the number itself.
    pub fn moves(&self, rule: usize) -> Moves
        requires rules { RulesOf self.now }
        requires rule { RecordOf self.now (record_at self.now rule) }
        ensures { dirs_of self.now.tapes result ≡ map (λ a. a.dir) (rule_here self.now rule).actions }
    {
        let record = self.record(rule);
        let first = record[ACTIONS + MOVE];
        if self.tapes < 2 {
            return Moves {
                first,
                second: 0,
                third: 0,
            };
        }
        let second = record[SECOND + MOVE];
        if self.tapes < 3 {
            return Moves {
                first,
                second,
                third: 0,
            };
        }
        Moves {
            first,
            second,
            third: record[THIRD + MOVE],
        }
    }

    // The symbol that a rule for one tape writes.
    pub fn symbol_on_one_tape(&self, rule: usize) -> u32
        requires rules { RulesOf self.now }
        requires tapes { self.now.tapes ≡ 1 }
        requires rule { RecordOf self.now (record_at self.now rule) }
        ensures { result ∷ [] ≡ map (λ a. a.write) (rule_here self.now rule).actions }
    {
        let record = self.record(rule);
        record[ACTIONS + WRITE]
    }

    // The number of the direction in which a rule for one tape moves the head.
    pub fn direction_on_one_tape(&self, rule: usize) -> u32
        requires rules { RulesOf self.now }
        requires tapes { self.now.tapes ≡ 1 }
        requires rule { RecordOf self.now (record_at self.now rule) }
        ensures { dir_of result ∷ [] ≡ map (λ a. a.dir) (rule_here self.now rule).actions }
    {
        let record = self.record(rule);
        record[ACTIONS + MOVE]
    }

    // Where the name of the state stands that a rule leads to.
    pub fn next_state(&self, rule: usize) -> Span
        requires rules { RulesOf self.now }
        requires rule { RecordOf self.now (record_at self.now rule) }
        ensures name { characters_at self.now.text.now result ≡ (rule_here self.now rule).to }
        ensures named { Named self.now result }
    {
        let record = self.record(rule);
        Span {
            start: record[TO],
            end: record[TO + 1],
        }
    }
}
