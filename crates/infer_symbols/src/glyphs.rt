// The characters that rules use, in the order of first use.
ghost use Rattle.std.specs.Prelude.{◌≡◌, false, ◌∷◌, [], ◌++◌, ◌+◌, ◌<◌, ◌^◌, cond, eqb, length, IsTrue};
ghost use Rattle.parser.specs.Row.{peek};
ghost use Rattle.tokens.specs.Listed.{tokens_of};
ghost use Rattle.assembler.specs.Entries.{entry_at, entries};
ghost use Rattle.infer_symbols.specs.Symbols.{range, symbols, is_new, takes, walked, firsts, outside, others, further, part_symbols, rule_symbols, rules_symbols};

use crate::codes::Codes;
use assembler::{entry, seek};
use lexer::kind;
use parser::view;
use sheet::rules;
use tokens::{Token, Tokens};

// Where a walk over read sets stands: in no set, in one of whose symbols none was met, or behind its
// first symbol, where the others are skipped.
#[derive(Clone, Copy, Debug, PartialEq, Eq)]
pub enum Walk {
    Outside,
    Open,
    Behind,
}

impl Walk {
    // Whether a symbol is the first of its set, or stands alone.
    #[tactic(auto, unfolding(crate::specs::Symbols::takes))]
    fn takes(self, t: Token) -> bool
        ensures { result ≡ takes self t }
    {
        match self {
            Walk::Outside | Walk::Open => view::is_symbol(t),
            Walk::Behind => false,
        }
    }

    // Behind a token of the read sets.
    #[tactic(auto, unfolding(crate::specs::Symbols::walked))]
    fn walked(self, t: Token) -> Self
        ensures { result ≡ walked self t }
    {
        match (t.kind, self) {
            (kind::L_BRACE, _) => Walk::Open,
            (kind::R_BRACE, _) => Walk::Outside,
            (_, Walk::Open) if view::is_symbol(t) => Walk::Behind,
            _ => self,
        }
    }
}

// Whether a token is a symbol that differs in kind or value from the last one that was noted.
#[tactic(auto, unfolding(crate::specs::Symbols::is_new))]
fn is_new(last: Token, t: Token) -> bool
    ensures { result ≡ is_new last t }
{
    if view::is_symbol(t) {
        return (t.kind != last.kind) | (t.value != last.value);
    }
    false
}

// Whether a token of the kind k stands at an index.
fn is_at(tokens: &Tokens, i: usize, k: u32) -> bool
    ensures { result ≡ eqb (peek (tokens_of tokens.now) i).kind k }
{
    tokens.at(i).kind == k
}

// Where the parts of a rule stand: what is read from an index to before another, and what is written up to the directions.
#[derive(Clone, Copy)]
pub struct Parts {
    pub from: usize,
    pub to: usize,
    pub write: usize,
    pub dir: usize,
    pub ghost small: { (from + 4 < 2 ^ 64) × (write + 2 < 2 ^ 64) },
}

// The tokens of a text, and the character that its blanks stand for.
// A range stays two indices, since one value would be taken apart in each function.
// The codes are no field: each contract would have to say then that the tokens stay.
#[derive(Clone, Copy)]
pub struct Symbols<'a> {
    pub tokens: Tokens<'a>,
    pub blank: u32,
    pub ghost few: { tokens.count < 2 ^ 62 },
}

impl<'a> Symbols<'a> {
    ghost use Rattle.infer_symbols.specs.Notes.{row_of, Uses};

    // Notes a token's character, if the token is one that counts.
    fn note_if(&self, counts: bool, t: Token, codes: &mut Codes)
        ensures { Uses self.now.blank (cond counts (t ∷ []) []) codes.old codes.new }
    {
        if counts {
            codes.note(rules::resolve(self.blank, t));
        }
    }

    // The symbols from an index to before another. One like the last that was noted is passed over; the
    // line feed in front of them is like none.
    pub(crate) fn note_range(&self, from: usize, to: usize, codes: &mut Codes)
        ensures { Uses self.now.blank (symbols (range (row_of self.now) from to)) codes.old codes.new }
    {
        let mut last = Token::FEED;
        for i in from..to {
            let t = self.tokens.at(i);
            if is_new(last, t) {
                codes.note(rules::resolve(self.blank, t));
                last = t;
            }
        }
    }

    // The first members of the read sets from an index to before another.
    fn note_firsts(&self, from: usize, to: usize, codes: &mut Codes)
        ensures { Uses self.now.blank (firsts outside (range (row_of self.now) from to)) codes.old codes.new }
    {
        let mut s = Walk::Outside;
        for i in from..to {
            let t = self.tokens.at(i);
            self.note_if(s.takes(t), t, codes);
            s = s.walked(t);
        }
    }

    // The further members of the set that is open at an index.
    fn note_others(&self, from: usize, to: usize, codes: &mut Codes)
        ensures { Uses self.now.blank (others false (range (row_of self.now) from to)) codes.old codes.new }
    {
        let mut seen = false;
        for i in from..to {
            let t = self.tokens.at(i);
            if t.kind == kind::R_BRACE {
                return;
            }
            let symbol = view::is_symbol(t);
            self.note_if(seen & symbol, t, codes);
            seen = seen | symbol;
        }
    }

    // The further members of all read sets from an index to before another, from the last set to the first.
    fn note_further(&self, from: usize, to: usize, codes: &mut Codes)
        ensures { Uses self.now.blank (further (range (row_of self.now) from to)) codes.old codes.new }
    {
        for i in (from..to).rev() {
            if self.tokens.at(i).kind == kind::L_BRACE {
                self.note_others(i + 1, to, codes);
            }
        }
    }

    // The symbols of what is read and of what is written. Without a set each symbol that is read is the first choice of its tape.
    fn note_tapes(&self, p: Parts, codes: &mut Codes)
        ensures { Uses self.now.blank (part_symbols (row_of self.now) p.from p.to p.write p.dir) codes.old codes.new }
    {
        if seek::has_kind(&self.tokens, p.from, p.to, kind::L_BRACE) {
            self.note_firsts(p.from, p.to, codes);
            self.note_range(p.write, p.dir, codes);
            self.note_further(p.from, p.to, codes);
        } else {
            self.note_range(p.from, p.to, codes);
            self.note_range(p.write, p.dir, codes);
        }
    }

    // Whether there is one entry that is read, with `) = (` behind it, and one that is written, with a comma behind it.
    fn is_single(&self, p: Parts) -> bool
        ensures { IsTrue result → part_symbols (row_of self.now) p.from p.to p.write p.dir
            ≡ symbols (peek (row_of self.now) p.from ∷ []) ++ symbols (peek (row_of self.now) p.write ∷ []) }
    {
        if p.to != p.from + 4 || p.dir != p.write + 2 {
            return false;
        }
        let tokens = &self.tokens;
        let x = is_at(tokens, p.from + 1, kind::R_PAREN) & is_at(tokens, p.from + 2, kind::EQ);
        let y = is_at(tokens, p.from + 3, kind::L_PAREN) & is_at(tokens, p.write + 1, kind::COMMA);
        x & y
    }

    // The symbols of what is read and of what is written. Most rules have one of each.
    fn note_parts(&self, p: Parts, codes: &mut Codes)
        ensures { Uses self.now.blank (part_symbols (row_of self.now) p.from p.to p.write p.dir) codes.old codes.new }
    {
        if !self.is_single(p) {
            return self.note_tapes(p, codes);
        }
        let (t, u) = (self.tokens.at(p.from), self.tokens.at(p.write));
        self.note_if(view::is_symbol(t), t, codes);
        self.note_if(view::is_symbol(u), u, codes);
    }

    // The symbols of the line at an index, if it is a rule: the first choice of each tape, what is written, the further choices.
    fn note_rule(&self, e: usize, codes: &mut Codes)
        requires { e < length (row_of self.now) }
        ensures { Uses self.now.blank (rule_symbols (row_of self.now) (entry_at (row_of self.now) e)) codes.old codes.new }
    {
        let t = self.tokens.at(e);
        if t.kind == entry::RULE {
            let q = self.tokens.at(e + entry::PARTS);
            let p = Parts {
                from: e + entry::READ,
                to: q.start as usize,
                write: q.end as usize,
                dir: q.value as usize,
            };
            self.note_parts(p, codes);
        }
    }

    // The symbols of all rules. A line's first token says where the next line begins, so that no iterator gives the lines.
    pub(crate) fn note_rules(&self, codes: &mut Codes)
        ensures { Uses self.now.blank (rules_symbols (row_of self.now) (entries (row_of self.now))) codes.old codes.new }
    {
        let mut e = 0;
        while e < self.tokens.len() {
            self.note_rule(e, codes);
            e = entry::next_line(self.tokens.at(e), e);
        }
    }
}
