// What the layers above ask of a token.
#![tactic(auto)]

ghost use Rattle.std.specs.Prelude.{◌≡◌, ◌+◌, ◌*◌, ◌<◌, ◌≤◌, length};
ghost use Rattle.lexer.specs.Tokens.{span};
ghost use Rattle.tokens.specs.View.{token_in};
ghost use Rattle.tokens.specs.Row.{peek};

use diag::Span;
use lexer::{TOKEN_WORDS, kind};

// A token as its four words: kind, start, end and value.
#[derive(Clone, Copy, Debug, PartialEq, Eq)]
pub struct Token {
    pub kind: u32,
    pub start: u32,
    pub end: u32,
    pub value: u32,
}

impl Token {
    // What stands past the last token: a line feed of no length.
    pub const FEED: Self = Self {
        kind: kind::NEWLINE,
        start: 0,
        end: 0,
        value: 0,
    };
}

// Token number i of those in work.
pub fn token_at(work: &[u32], i: usize) -> Token
    requires { 4 * i + 4 ≤ length work.now }
    ensures { result ≡ token_in work.now i }
{
    let o = TOKEN_WORDS * i;
    Token {
        kind: work[o],
        start: work[o + 1],
        end: work[o + 2],
        value: work[o + 3],
    }
}

// A token's place.
pub fn span_of(t: Token) -> Span
    ensures { result ≡ span t.start t.end }
{
    Span {
        start: t.start,
        end: t.end,
    }
}

// The tokens at the front of a row of words. Their number stands beside the row: a slice of just
// their words would be divided at each look.
#[derive(Clone, Copy)]
pub struct Tokens<'a> {
    pub words: &'a [u32],
    pub count: usize,
    pub ghost within: { 4 * count ≤ length words.now },
}

impl<'a> Tokens<'a> {
    ghost use Rattle.tokens.specs.Listed.{tokens_of};

    // How many tokens there are.
    pub fn len(&self) -> usize
        ensures tokens { result ≡ length (tokens_of self.now) }
        ensures count { result ≡ self.now.count }
    {
        self.count
    }

    // The token at an index that is known to be inside.
    pub fn known(&self, i: usize) -> Token
        requires { i < self.now.count }
        ensures { result ≡ peek (tokens_of self.now) i }
    {
        token_at(self.words, i)
    }

    // The token at an index; past the last one, a line feed of no length.
    pub fn at(&self, i: usize) -> Token
        ensures { result ≡ peek (tokens_of self.now) i }
    {
        if i < self.count {
            return self.known(i);
        }
        Token::FEED
    }
}
