// The diagnostics of F: names listed twice, and names that a declared Q lacks.
ghost use Rattle.std.specs.Prelude.{◌≡◌, true, List, [], ◌∷◌, ◌++◌, ltb, ℕ, ◌+◌, ◌<◌, ◌≤◌, ◌^◌, length, get_or};
ghost use Rattle.diag.specs.Appends.{Appends, CanCount};
ghost use Rattle.tokens.specs.Row.{peek};
ghost use Rattle.tokens.specs.Listed.{tokens_of};
ghost use Rattle.parser.specs.ItemNumbers.{final};
ghost use Rattle.assembler_names.specs.Names.{FirstsOf};
ghost use Rattle.assembler.specs.Names.{is_word};
ghost use Rattle.assembler.specs.Finals.{name_at, names_of, final_error, final_error_at, final_errors, finals_errors};

use crate::declarations;
use diag::{Code, Diagnostic, Log};
use lexer::kind;
use parser::{DECLARATIONS, ItemKind, view};
use tokens::{Tokens, span_of};

// The mark of a name that Q has.
const OF_Q: u32 = 1;

// The mark of a name that F has come by: this and the index of its first listing.
const LISTED: u32 = 2;

// The names of a text: its tokens, and the row of first equal words, which gives for each word the first that has its characters.
#[derive(Clone, Copy)]
pub struct Names<'a> {
    pub text: &'a [u8],
    pub tokens: Tokens<'a>,
    pub firsts: &'a [u32],
    pub ghost few: { tokens.count < 2 ^ 31 },
    pub ghost room: { tokens.count ≤ length firsts.now },
    pub ghost interned: { FirstsOf text.now (tokens_of tokens) tokens.count firsts.now },
}

// A row of marks holds for each name a word, at the index of the first word that has its characters: OF_Q where Q has the name,
// and LISTED and the index of its first listing where F has come by it. Marks are numbers, since they are words of the lent work.
// They are no field: each method would have to say then that it keeps the tokens and the firsts.
impl<'a> Names<'a> {
    ghost use Rattle.assembler.specs.Marked.{row_of, HasMarks, Marked};

    // The names of tokens whose row of first equal words this is.
    pub fn new(text: &'a [u8], tokens: Tokens<'a>, firsts: &'a [u32]) -> Self
        requires few { tokens.count < 2 ^ 31 }
        requires room { tokens.count ≤ length firsts.now }
        requires interned { FirstsOf text.now (tokens_of tokens) tokens.count firsts.now }
        ensures text { result.text.now ≡ text.now }
        ensures tokens { result.tokens ≡ tokens.entry }
        ensures firsts { result.firsts.now ≡ firsts.now }
    {
        Self {
            text,
            tokens,
            firsts,
        }
    }

    // Marks the token at an index as one of Q's names, if it is one. Crate infer's list_final does this over Names of its own,
    // which promise less: one function for both would ask again for what each of the two holds.
    fn mark_state(&self, marks: &mut [u32], at: usize)
        requires inside { at < self.now.tokens.count }
        requires room { HasMarks self.now marks.old }
        ensures { (qs : List ℕ) → Marked self.now marks.old qs []
            → Marked self.now marks.new (qs ++ name_at at (peek (row_of self.now) at)) [] }
    {
        if view::is_state(self.tokens.at(at)) {
            marks[self.firsts[at] as usize] = OF_Q;
        }
    }

    // Marks the names of the set in the line at an index as Q's, and no others. This loop and that of final_errors are two: one
    // with a closure would have to say in its contract what all calls of it do.
    pub fn mark_states(&self, marks: &mut [u32], q: usize)
        requires line { q < 2 ^ 32 }
        requires room { HasMarks self.now marks.old }
        ensures { Marked self.now marks.new (names_of (row_of self.now) q) [] }
    {
        marks[..self.tokens.count].fill(0);
        for i in q + 1..self.tokens.count {
            if self.tokens.at(i).kind == kind::NEWLINE {
                return;
            }
            self.mark_state(marks, i);
        }
    }

    // The word at an index, as a name that F lists.
    fn final_name(&self, marks: &mut [u32], at: usize, declared: bool, log: &mut Log)
        requires inside { at < self.now.tokens.count }
        requires word { is_word (peek (row_of self.now) at) ≡ true }
        requires room { HasMarks self.now marks.old
            × CanCount log.old 1 }
        ensures same_row { log.new.row.ghost_name ≡ log.old.row.ghost_name }
        ensures listed { (qs before : List ℕ) → Marked self.now marks.old qs before
            → Appends log.old log.new (final_error self.now.text.now (row_of self.now) declared qs before at)
            × Marked self.now marks.new qs (before ++ at ∷ []) }
    {
        let t = self.tokens.at(at);
        let k = self.firsts[at] as usize;
        let m = marks[k];
        if LISTED <= m {
            declarations::duplicate(&self.tokens, m as usize - LISTED as usize, t, log);
            return;
        }
        marks[k] = (at + LISTED as usize) as u32;
        if declared && m == 0 {
            log.append(Diagnostic::error(Code::UnknownName as u32, span_of(t)));
        }
    }

    // The token at an index, as one of F's line.
    pub fn final_at(&self, marks: &mut [u32], at: usize, declared: bool, log: &mut Log)
        requires inside { at < self.now.tokens.count }
        requires room { HasMarks self.now marks.old
            × CanCount log.old 1 }
        ensures same_row { log.new.row.ghost_name ≡ log.old.row.ghost_name }
        ensures listed { (qs before : List ℕ) → Marked self.now marks.old qs before
            → Appends log.old log.new (final_error_at self.now.text.now (row_of self.now) declared qs before at)
            × Marked self.now marks.new qs (before ++ name_at at (peek (row_of self.now) at)) }
    {
        if view::is_state(self.tokens.at(at)) {
            self.final_name(marks, at, declared, log);
        }
    }

    // The names of the set in the line at f, as those that F lists; those of the set at q are marked.
    fn final_errors(&self, marks: &mut [u32], q: u32, f: u32, log: &mut Log)
        requires room { HasMarks self.now marks.old
            × CanCount log.old self.now.tokens.count }
        requires marks { Marked self.now marks.old (names_of (row_of self.now) q) [] }
        ensures { Appends log.old log.new (final_errors self.now.text.now (row_of self.now) (ltb q self.now.tokens.count)
            (names_of (row_of self.now) q) [] (names_of (row_of self.now) f)) }
    {
        let declared = declarations::line(q, self.tokens.count).is_some();
        for i in f as usize + 1..self.tokens.count {
            if self.tokens.at(i).kind == kind::NEWLINE {
                return;
            }
            self.final_at(marks, i, declared, log);
        }
    }

    // The diagnostics of F, of the first declarations; the marks may be any before.
    pub(crate) fn finals(&self, marks: &mut [u32], first: &[u32; DECLARATIONS], log: &mut Log)
        requires room { HasMarks self.now marks.old
            × CanCount log.old self.now.tokens.count }
        ensures { Appends log.old log.new (finals_errors self.now.text.now (row_of self.now) first.now) }
    {
        let q = first[ItemKind::States as usize];
        let f = first[ItemKind::Final as usize];
        self.mark_states(marks, q as usize);
        self.final_errors(marks, q, f, log);
    }
}

// The diagnostics of F, of the first declarations; without F there is none, and nobody looks at the
// row of first equal words or at the marks.
pub(crate) fn finals(
    text: &[u8],
    tokens: &Tokens,
    firsts: &[u32],
    marks: &mut [u32],
    first: &[u32; DECLARATIONS],
    log: &mut Log,
)
    requires few { tokens.now.count < 2 ^ 31 }
    requires room { (tokens.now.count ≤ length firsts.now)
        × (tokens.now.count ≤ length marks.old)
        × CanCount log.old tokens.now.count }
    requires interned { get_or first.now final 0 < tokens.now.count
        → FirstsOf text.now (tokens_of tokens.now) tokens.now.count firsts.now }
    ensures { Appends log.old log.new (finals_errors text.now (tokens_of tokens.now) first.now) }
{
    if declarations::line(first[ItemKind::Final as usize], tokens.count).is_some() {
        Names::new(text, *tokens, firsts).finals(marks, first, log);
    }
}
