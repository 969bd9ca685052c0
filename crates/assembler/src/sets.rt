// How many rules a line stands for: the product of the sizes of the sets that it reads.
ghost use Rattle.std.specs.Prelude.{◌≡◌, true, false, ◌+◌, ◌*◌, ◌-◌, ◌<◌, ◌≤◌, ◌^◌, take, drop};
ghost use Rattle.lexer.specs.KindWords.{r_brace};
ghost use Rattle.tokens.specs.Listed.{tokens_of};
ghost use Rattle.assembler.specs.Entries.{has_kind};
ghost use Rattle.assembler.specs.Rules.{max_transitions, counted, combinations};

use crate::rules::MAX_TRANSITIONS;
use crate::seek;
use lexer::kind;
use parser::view;
use tokens::{Token, Tokens};

// The sets that were read: the product of their sizes, cut off above the limit, and the members since the last began.
#[derive(Clone, Copy, Debug, PartialEq, Eq)]
pub struct Sets {
    pub product: usize,
    pub size: usize,
}

impl Sets {
    // One token more.
    fn counted(self, t: Token) -> Self
        requires { (self.product ≤ max_transitions + 1)
            × (self.size < 2 ^ 32) }
        ensures { result ≡ counted self t }
    {
        if t.kind == kind::COMMA {
            return self;
        }
        if view::is_symbol(t) {
            return Self {
                size: self.size + 1,
                ..self
            };
        }
        if t.kind == kind::L_BRACE {
            return Self { size: 0, ..self };
        }
        if t.kind != kind::R_BRACE {
            return self;
        }
        Self {
            product: (self.product * self.size).min(MAX_TRANSITIONS + 1),
            ..self
        }
    }
}

// The product of the sizes of the sets from an index to before another, cut off above the limit: 1 where none ends there.
fn product(tokens: &Tokens, from: usize, to: usize) -> usize
    requires { tokens.now.count < 2 ^ 32 }
    ensures { result ≡ combinations (take (to - from) (drop from (tokens_of tokens.now))) }
{
    if !seek::has_kind(tokens, from, to, kind::R_BRACE) {
        return 1;
    }
    let mut sets = Sets {
        product: 1,
        size: 0,
    };
    for i in from..to.min(tokens.count) {
        sets = sets.counted(tokens.at(i));
    }
    sets.product
}

// Whether no set ends at the four tokens from an index on.
fn lacks_end(tokens: &Tokens, from: usize) -> bool
    requires { from + 3 < 2 ^ 64 }
    ensures { result ≡ true → has_kind r_brace (take 4 (drop from (tokens_of tokens.now))) ≡ false }
{
    tokens.at(from).kind != kind::R_BRACE
        && tokens.at(from + 1).kind != kind::R_BRACE
        && tokens.at(from + 2).kind != kind::R_BRACE
        && tokens.at(from + 3).kind != kind::R_BRACE
}

// Whether four tokens stand from an index to before another, and no set ends there: most rules read one symbol, and have it, `)`,
// `=` and `(` between their states. False says nothing.
fn is_plain(tokens: &Tokens, from: usize, to: usize) -> bool
    ensures { result ≡ true → has_kind r_brace (take (to - from) (drop from (tokens_of tokens.now))) ≡ false }
{
    4 <= to && to - 4 == from && to <= tokens.count && lacks_end(tokens, from)
}

// The product of the sizes of the sets from an index to before another, told at once for most rules.
pub fn combinations(tokens: &Tokens, from: usize, to: usize) -> usize
    requires { tokens.now.count < 2 ^ 32 }
    ensures { result ≡ combinations (take (to - from) (drop from (tokens_of tokens.now))) }
{
    if is_plain(tokens, from, to) {
        return 1;
    }
    product(tokens, from, to)
}
