// The elements of an item: one token, and lists of them.
ghost use Rattle.std.specs.Prelude.{◌≡◌, ◌+◌, ◌*◌, ◌/◌, ◌<◌, ◌≤◌, ◌^◌, ℕ, Bool, false, length};
ghost use Rattle.lexer.specs.KindWords.{newline, r_brace};
ghost use Rattle.parser.specs.Row.{tokens_in, ended, peek};
ghost use Rattle.parser.specs.Views.{is_kind, is_choice, is_state, is_symbol, is_pair, Pairs, is_write};
ghost use Rattle.parser.specs.Lines.{Parsed, Parser, code_of, unexpected, one, direction, separator, entries, set, tuple, read_entry, output};
ghost use Rattle.parser.specs.Calls.{Tells, Reads, ReadsEntries};

use crate::row::Row;
use crate::{Failure, Parsed, view};
use diag::Code;
use lexer::{TOKEN_WORDS, keyword, kind};
use tokens::{Token, span_of};

// The words of a symbol and the comma behind it.
const PAIR_WORDS: usize = 2 * TOKEN_WORDS;

// E002 for an unterminated string, E001 for any other token that is not what is due.
#[tactic(auto, unfolding(crate::specs::Lines::code_of))]
fn code_of(t: Token) -> Code
    ensures { result ≡ code_of t }
{
    if t.kind == kind::UNTERMINATED_STRING {
        Code::UnterminatedString
    } else {
        Code::Unexpected
    }
}

// The failure at a token that is not what is due.
#[tactic(auto, unfolding(crate::specs::Lines::unexpected))]
pub(crate) fn unexpected(t: Token) -> Failure
    ensures { result ≡ unexpected t }
{
    Failure {
        code: code_of(t),
        span: span_of(t),
    }
}

impl Row<'_> {
    // A token that passes a test, which no line feed does.
    fn one<F: Fn(Token) -> bool>(self, at: usize, test: F) -> Parsed<usize>
        requires callable { F.IsAlwaysCallable test }
        requires refuses { (b : Bool) → F.post test ended b → b ≡ false }
        ensures { (f : Token → Bool) → Tells (F.post test) f → result ≡ one f (tokens_in self.entry.words.now) at }
    {
        let t = self.token(at);
        if test(t) {
            Ok((at + 1, 1))
        } else {
            Err(unexpected(t))
        }
    }

    // A sign of a kind.
    #[tactic(auto, unfolding(crate::specs::Views::is_kind))]
    pub(crate) fn expect(self, at: usize, kind: u32) -> Parsed<usize>
        requires { kind < newline }
        ensures { result ≡ one (is_kind kind) (tokens_in self.entry.words.now) at }
    {
        self.one(at, |t| view::is_kind(t, kind))
    }

    // A keyword among those of some values.
    #[tactic(auto, unfolding(crate::specs::Views::is_choice))]
    pub(crate) fn choice(self, at: usize, first: u32, last: u32) -> Parsed<usize>
        ensures { result ≡ one (is_choice first last) (tokens_in self.entry.words.now) at }
    {
        self.one(at, |t| view::is_choice(t, first, last))
    }

    // A state's name.
    #[tactic(auto, unfolding(crate::specs::Views::is_state))]
    pub(crate) fn state(self, at: usize) -> Parsed<usize>
        ensures { result ≡ one is_state (tokens_in self.entry.words.now) at }
    {
        self.one(at, view::is_state)
    }

    // A symbol.
    #[tactic(auto, unfolding(crate::specs::Views::is_symbol))]
    pub(crate) fn symbol(self, at: usize) -> Parsed<usize>
        ensures { result ≡ one is_symbol (tokens_in self.entry.words.now) at }
    {
        self.one(at, view::is_symbol)
    }

    // A symbol, or `*` for the symbol read.
    #[tactic(auto, unfolding(crate::specs::Views::is_write))]
    fn write_entry(self, at: usize) -> Parsed<usize>
        ensures { result ≡ one is_write (tokens_in self.entry.words.now) at }
    {
        self.one(at, view::is_write)
    }

    // A direction; what may look like one is E008.
    #[tactic(auto, using(crate::proofs::Single::direction_fits), unfolding(crate::specs::Lines::direction))]
    fn direction(self, at: usize) -> Parsed<usize>
        ensures { result ≡ direction (tokens_in self.entry.words.now) at }
    {
        let t = self.token(at);
        if view::is_direction(t) {
            Ok((at + 1, 1))
        } else if view::is_text(t) {
            Err(Failure {
                code: Code::NoDirection,
                span: span_of(t),
            })
        } else {
            Err(unexpected(t))
        }
    }

    // Behind an entry: a comma, and 1 for more to come; or the closing sign, and 0.
    // A count and no `bool`, so that it is a parser as the others are and their laws hold of it.
    #[tactic(auto, using(crate::proofs::Single::before_feed), unfolding(crate::specs::Lines::separator))]
    fn separator(self, at: usize, close: u32) -> Parsed<usize>
        requires { close < newline }
        ensures { result ≡ separator close (tokens_in self.entry.words.now) at }
    {
        let t = self.token(at);
        if t.kind == kind::COMMA {
            Ok((at + 1, 1))
        } else if t.kind == close {
            Ok((at + 1, 0))
        } else {
            Err(unexpected(t))
        }
    }

    // Entries parted by commas, up to a sign of the kind `close`; how many stand before is told. A loop, since
    // where an entry ends is told by reading it.
    fn entries<F: Fn(usize) -> Parsed<usize>>(
        self,
        at: usize,
        before: usize,
        close: u32,
        entry: F,
    ) -> Parsed<usize>
        requires callable { F.IsAlwaysCallable entry }
        requires reads { (p : Parser) × ReadsEntries (F.post entry) p (tokens_in self.words.now) }
        requires sign { close < newline }
        requires count { before ≤ at }
        ensures { (p : Parser) → ReadsEntries (F.post entry) p (tokens_in self.entry.words.now)
            → result ≡ entries p close (tokens_in self.entry.words.now) at before }
    {
        let mut i = at;
        let mut n = before;
        loop {
            let (j, _) = entry(i)?;
            let (next, more) = self.separator(j, close)?;
            n += 1;
            if more == 0 {
                return Ok((next, n));
            }
            i = next;
        }
    }

    // States parted by commas, up to `}`.
    fn state_entries(self, at: usize) -> Parsed<usize>
        ensures { result ≡ entries (one is_state) r_brace (tokens_in self.entry.words.now) at 0 }
    {
        self.entries(at, 0, kind::R_BRACE, |i| self.state(i))
    }

    // Whether a symbol and a comma stand at an index.
    #[tactic(auto, unfolding(crate::specs::Views::is_pair))]
    fn pair(self, at: usize) -> bool
        requires { at + 1 < length self.words.now / 4 }
        ensures { result ≡ is_pair (tokens_in self.entry.words.now) at }
    {
        view::is_symbol(self.token(at)) && self.token(at + 1).kind == kind::COMMA
    }

    // How many symbols with a comma behind them stand from an index on; a list goes on behind them.
    fn pairs(self, at: usize) -> usize
        ensures { Pairs (tokens_in self.entry.words.now) at result
            × (at + 2 * result < 2 ^ 64) }
    {
        if self.words.len() / TOKEN_WORDS < at {
            return 0;
        }
        let (blocks, _) = self.words[TOKEN_WORDS * at..].as_chunks::<PAIR_WORDS>();
        let other = blocks.iter().position(|words| !Row { words }.pair(0));
        other.unwrap_or(blocks.len())
    }

    // Symbols parted by commas, up to `}`.
    fn symbol_entries(self, at: usize) -> Parsed<usize>
        ensures { result ≡ entries (one is_symbol) r_brace (tokens_in self.entry.words.now) at 0 }
    {
        let m = self.pairs(at);
        self.entries(at + 2 * m, m, kind::R_BRACE, |i| self.symbol(i))
    }

    // What a rule reads on one tape: a symbol, or a set that is not empty.
    #[tactic(auto, using(crate::proofs::Single::before_feed), unfolding(crate::specs::Lines::then, crate::specs::Lines::read_entry))]
    fn read_entry(self, at: usize) -> Parsed<usize>
        ensures { result ≡ read_entry (tokens_in self.entry.words.now) at }
    {
        if self.token(at).kind != kind::L_BRACE {
            return self.symbol(at);
        }
        let (end, _) = self.symbol_entries(at + 1)?;
        Ok((end, 1))
    }

    // A set, which may be empty; `list` reads its entries, and `}`.
    #[tactic(auto, using(crate::proofs::Single::before_feed), unfolding(crate::specs::Lines::then, crate::specs::Lines::set))]
    fn set<F: Fn(usize) -> Parsed<usize>>(self, at: usize, list: F) -> Parsed<usize>
        requires callable { F.IsAlwaysCallable list }
        ensures { (p : Parser) → Reads (F.post list) (λ i. entries p r_brace (tokens_in self.entry.words.now) i 0)
            → result ≡ set p (tokens_in self.entry.words.now) at }
    {
        let (first, _) = self.expect(at, kind::L_BRACE)?;
        if self.token(first).kind == kind::R_BRACE {
            return Ok((first + 1, 0));
        }
        list(first)
    }

    // A set of states.
    pub(crate) fn state_set(self, at: usize) -> Parsed<usize>
        ensures { result ≡ set (one is_state) (tokens_in self.entry.words.now) at }
    {
        self.set(at, |i| self.state_entries(i))
    }

    // A set of symbols.
    pub(crate) fn symbol_set(self, at: usize) -> Parsed<usize>
        ensures { result ≡ set (one is_symbol) (tokens_in self.entry.words.now) at }
    {
        self.set(at, |i| self.symbol_entries(i))
    }

    // One entry, or one for each tape in parentheses.
    #[tactic(auto, using(crate::proofs::Single::before_feed), unfolding(crate::specs::Lines::tuple))]
    fn tuple<F: Fn(usize) -> Parsed<usize>>(self, at: usize, entry: F) -> Parsed<usize>
        requires callable { F.IsAlwaysCallable entry }
        requires reads { (p : Parser) × ReadsEntries (F.post entry) p (tokens_in self.words.now) }
        ensures { (p : Parser) → ReadsEntries (F.post entry) p (tokens_in self.entry.words.now)
            → result ≡ tuple p (tokens_in self.entry.words.now) at }
    {
        if self.token(at).kind == kind::L_PAREN {
            self.entries(at + 1, 0, kind::R_PAREN, entry)
        } else {
            entry(at)
        }
    }

    // What a rule reads.
    pub(crate) fn reads(self, at: usize) -> Parsed<usize>
        ensures { result ≡ tuple read_entry (tokens_in self.entry.words.now) at }
    {
        self.tuple(at, |i| self.read_entry(i))
    }

    // What a rule writes.
    pub(crate) fn writes(self, at: usize) -> Parsed<usize>
        ensures { result ≡ tuple (one is_write) (tokens_in self.entry.words.now) at }
    {
        self.tuple(at, |i| self.write_entry(i))
    }

    // The directions of a rule.
    pub(crate) fn directions(self, at: usize) -> Parsed<usize>
        ensures { result ≡ tuple direction (tokens_in self.entry.words.now) at }
    {
        self.tuple(at, |i| self.direction(i))
    }

    // How the output is read: `word`, `unary` and a symbol, or `binary` and `lsb` or `msb`.
    #[tactic(auto, unfolding(crate::specs::Lines::then, crate::specs::Lines::output))]
    pub(crate) fn output(self, at: usize) -> Parsed<usize>
        ensures { result ≡ output (tokens_in self.entry.words.now) at }
    {
        let (next, _) = self.choice(at, keyword::WORD, keyword::BINARY)?;
        match self.token(at).value {
            keyword::UNARY => self.symbol(next),
            keyword::BINARY => self.choice(next, keyword::LSB, keyword::MSB),
            _ => Ok((next, 1)),
        }
    }
}
