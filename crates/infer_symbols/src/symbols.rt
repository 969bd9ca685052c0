// Σ and Γ.
ghost use Rattle.std.specs.Prelude.{◌≡◌, false, ◌∷◌, [], ◌+◌, ◌*◌, ◌-◌, ◌≤◌, ◌<◌, ◌^◌, length, take};
ghost use Rattle.language.specs.Layout.{flat};
ghost use Rattle.tokens.specs.Listed.{tokens_of};
ghost use Rattle.sheet.specs.Puts.{Puts};
ghost use Rattle.infer_symbols.specs.Codes.{hints, Hinted};
ghost use Rattle.infer_symbols.specs.Notes.{Notes};
ghost use Rattle.infer_symbols.specs.Symbols.{range, past_comma, quoted_pair, symbols, symbols_in, is_blank, has_blank};
ghost use Rattle.infer_symbols.specs.Alphabets.{inferred_words, symbol_words, candidates, gamma_codes, gamma_words, sigma_words};

use crate::codes::Codes;
use crate::glyphs::Symbols;
use crate::input;
use assembler::declarations::line;
use diag::Span;
use lexer::kind;
use parser::{DECLARATIONS, ItemKind, view};
use sheet::put::Sheet;
use sheet::rules;
use tokens::{Token, Tokens};

// The place of an inferred symbol.
const NOWHERE: Span = Span { start: 0, end: 0 };

// The index behind a comma at an index; that index itself where none stands there. Sheet's first_entry is this of
// another sign, with a definition of its own, and this has one call: one function for both would have a third
// definition, that the two are shown to be cases of.
#[tactic(auto, unfolding(crate::specs::Symbols::past_comma))]
fn past_comma(tokens: &Tokens, i: usize) -> usize
    requires { i + 1 < 2 ^ 64 }
    ensures { result ≡ past_comma (tokens_of tokens.now) i }
{
    let t = tokens.at(i);
    if t.kind == kind::COMMA {
        return i + 1;
    }
    i
}

// Whether a quoted character and a comma stand from an index on.
fn quoted_pair(words: &[u32], i: usize) -> bool
    requires { 4 * i + 8 ≤ length words.now }
    ensures { result ≡ quoted_pair words.now i }
{
    let t = tokens::token_at(words, i);
    if t.kind == kind::QUOTED {
        let u = tokens::token_at(words, i + 1);
        return u.kind == kind::COMMA;
    }
    false
}

// Codes without a place.
fn put_codes(codes: &[u32], sheet: &mut Sheet)
    ensures { Puts (flat inferred_words codes.now) sheet.old sheet.new }
{
    for &c in codes {
        sheet.symbol(c, NOWHERE);
    }
}

// Whether a token is a symbol that is the blank.
#[tactic(auto, unfolding(crate::specs::Symbols::is_blank))]
fn is_blank(t: Token, blank: u32) -> bool
    ensures { result ≡ is_blank blank t }
{
    view::is_symbol(t) && rules::resolve(blank, t) == blank
}

impl<'a> Symbols<'a> {
    ghost use Rattle.infer_symbols.specs.Notes.{row_of};

    // A token in the sheet, if it is a symbol: as it is listed, or as one of an undeclared Σ, which lacks the blank.
    // A flag, as in the definition `symbol_words`: the contract of a function over a closure
    // would say of each call what that says once.
    fn put_symbol(&self, t: Token, inferred: bool, sheet: &mut Sheet)
        ensures { Puts (flat (symbol_words inferred self.now.blank) (symbols (t ∷ []))) sheet.old sheet.new }
    {
        if !view::is_symbol(t) {
            return;
        }
        let c = rules::resolve(self.blank, t);
        // A symbol is stored as three words behind one test for room: this is where a long list of symbols goes.
        if !inferred {
            return sheet.words(&[c, t.start, t.end]);
        }
        if c != self.blank {
            sheet.words(&[c, 0, 0]);
        }
    }

    // Quoted symbols from an index on, each with a comma behind it: the index behind them,
    // which a loop over an iterator would not give.
    // What is read says only whether to go on, so that no index waits for it.
    fn quoted_run(&self, from: usize, to: usize, inferred: bool, sheet: &mut Sheet) -> usize
        requires { to < 2 ^ 32 }
        ensures on { from ≤ result }
        ensures near { result - from ≤ to - from }
        ensures puts { Puts (flat (symbol_words inferred self.now.blank)
            (symbols (range (row_of self.now) from result))) sheet.old sheet.new }
    {
        let last = self.tokens.count.min(to).saturating_sub(1);
        let words = self.tokens.words;
        let mut i = from;
        while i < last && quoted_pair(words, i) {
            self.put_symbol(tokens::token_at(words, i), inferred, sheet);
            i += 2;
        }
        i
    }

    // The symbols from an index to before another. Each turn takes one of any kind, and the run behind
    // it: what stands there says how far it goes.
    fn put_range(&self, from: usize, to: usize, inferred: bool, sheet: &mut Sheet)
        requires { to < 2 ^ 32 }
        ensures { Puts (flat (symbol_words inferred self.now.blank)
            (symbols (range (row_of self.now) from to))) sheet.old sheet.new }
    {
        // A sheet of its own over the same row stays in registers: without it glyphs-set takes 10 in a hundred more instructions,
        // and bare symbols a quarter, which each begin a run of none.
        let mut own = Sheet::new(sheet.row, sheet.at);
        let mut i = from;
        while i < to {
            self.put_symbol(self.tokens.at(i), inferred, &mut own);
            i = past_comma(&self.tokens, i + 1);
            i = self.quoted_run(i, to, inferred, &mut own);
        }
        sheet.at = own.at;
    }

    // The symbols of the line at an index.
    fn put_line(&self, f: usize, inferred: bool, sheet: &mut Sheet)
        requires { f < 2 ^ 32 }
        ensures { Puts (flat (symbol_words inferred self.now.blank) (symbols_in (row_of self.now) f)) sheet.old sheet.new }
    {
        let t = self.tokens.at(f);
        self.put_range(f + 1, t.value as usize, inferred, sheet);
    }

    // Whether the blank is among the symbols from an index to before another.
    #[tactic(auto, using(crate::proofs::AlphabetLaws::blanks))]
    fn has_blank(&self, from: usize, to: usize) -> bool
        ensures { result ≡ has_blank self.now.blank (range (row_of self.now) from to) }
    {
        for i in from..to {
            if is_blank(self.tokens.at(i), self.blank) {
                return true;
            }
        }
        false
    }

    // Notes what an undeclared Γ holds besides the blank: a declared Σ and what the rules use; or what they use and the input.
    fn note_candidates(&self, text: &[u8], first: &[u32; DECLARATIONS], codes: &mut Codes)
        ensures { Notes (candidates text.now self.now.blank (row_of self.now) first.now) codes.old codes.new }
    {
        let n = self.tokens.len();
        if let Some(s) = line(first[ItemKind::InputAlphabet as usize], n) {
            let t = self.tokens.at(s);
            self.note_range(s + 1, t.value as usize, codes);
            return self.note_rules(codes);
        }
        self.note_rules(codes);
        let d = first[ItemKind::Input as usize] as usize;
        input::note_input(text, &self.tokens, d, codes);
    }

    // The codes of an undeclared Γ, at the front of a row, and their hints; answers the number of codes.
    pub fn gamma_codes(&self, text: &[u8], first: &[u32; DECLARATIONS], row: &mut [u32]) -> usize
        requires { length (gamma_codes text.now self.now.blank (row_of self.now) first.now) ≤ length row.old }
        ensures codes { take result row.new ≡ gamma_codes text.now self.now.blank (row_of self.now) first.now }
        ensures count { result ≡ length (gamma_codes text.now self.now.blank (row_of self.now) first.now) }
        ensures hints { Hinted (hints (length text.now)) result row.new }
    {
        let mut codes = Codes::new(row, text.len());
        codes.note(self.blank);
        self.note_candidates(text, first, &mut codes);
        codes.count()
    }

    // Γ, from the first declarations, with the blank last if it is declared and lacks it; where
    // it is not declared, these are its codes.
    pub fn gamma(&self, codes: &[u32], first: &[u32; DECLARATIONS], sheet: &mut Sheet)
        ensures { Puts (gamma_words self.now.blank (row_of self.now) first.now codes.now) sheet.old sheet.new }
    {
        let Some(g) = line(first[ItemKind::TapeAlphabet as usize], self.tokens.len()) else {
            return put_codes(codes, sheet);
        };
        self.put_line(g, false, sheet);
        let t = self.tokens.at(g);
        if !self.has_blank(g + 1, t.value as usize) {
            sheet.symbol(self.blank, NOWHERE);
        }
    }

    // Σ, from the first declarations; where it is not declared, Γ less the blank, of which
    // these are the codes if it is not declared.
    pub fn sigma(&self, codes: &[u32], first: &[u32; DECLARATIONS], sheet: &mut Sheet)
        ensures { Puts (sigma_words self.now.blank (row_of self.now) first.now codes.now) sheet.old sheet.new }
    {
        let n = self.tokens.len();
        if let Some(s) = line(first[ItemKind::InputAlphabet as usize], n) {
            return self.put_line(s, false, sheet);
        }
        if let Some(g) = line(first[ItemKind::TapeAlphabet as usize], n) {
            return self.put_line(g, true, sheet);
        }
        if let [_, others @ ..] = codes {
            put_codes(others, sheet);
        }
    }
}
