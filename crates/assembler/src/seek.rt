// Searches among tokens: for a kind, and for the end of a line. Each walk over the lines goes on in its own way, by the line
// feed or by what the first token says, so that no iterator serves them all: one for the two that go by the line feed is as
// fast, but takes a hundred lines more than it saves, and one for the six that may go by `behind_line` makes line feeds 5.5 in
// a hundred slower to read, and comments 3.
// The two ends of what is looked at are two numbers, here and in sets, since a Range is not
// Copy and each is looked at more than once.
ghost use Rattle.std.specs.Prelude.{◌≡◌, ◌+◌, ◌-◌, ◌≤◌, ◌<◌, ◌^◌, eqb, take, drop};
ghost use Rattle.lexer.specs.KindWords.{newline};
ghost use Rattle.tokens.specs.Listed.{tokens_of};
ghost use Rattle.parser.specs.Lines.{line_length};
ghost use Rattle.assembler.specs.Entries.{has_kind, behind};

use crate::entry;
use lexer::kind;
use tokens::{Token, Tokens};

// A line of so many tokens is long.
const LONG: usize = 64;

// The tokens of a text that has fewer stay in a cache: 1 MiB.
const FEW: usize = 65536;

// Whether a token of the kind k stands from an index to before another, no later than behind the
// last token; looked for from the last one on.
fn kind_before(tokens: &Tokens, from: usize, to: usize, k: u32) -> bool
    requires { to ≤ tokens.now.count }
    ensures { result ≡ has_kind k (take (to - from) (drop from (tokens_of tokens.now))) }
{
    for i in (from..to).rev() {
        if tokens.known(i).kind == k {
            return true;
        }
    }
    false
}

// Whether a token of the kind k stands from an index to before another, no later than behind the last token: looked for among the
// first few, where most rules end or their first set is closed, and then from the last one on, near which the last set is.
#[tactic(auto, using(crate::proofs::Rows::kinds))]
fn kind_within(tokens: &Tokens, from: usize, to: usize, k: u32) -> bool
    requires { to ≤ tokens.now.count }
    ensures { result ≡ has_kind k (take (to - from) (drop from (tokens_of tokens.now))) }
{
    if to <= from {
        return false;
    }
    if to - from <= LONG {
        return kind_before(tokens, from, to, k);
    }
    kind_before(tokens, from, from + LONG, k) || kind_before(tokens, from + LONG, to, k)
}

// Whether a token of the kind k stands from an index to before another.
#[tactic(auto, using(crate::proofs::Rows::kinds))]
pub fn has_kind(tokens: &Tokens, from: usize, to: usize, k: u32) -> bool
    ensures { result ≡ has_kind k (take (to - from) (drop from (tokens_of tokens.now))) }
{
    kind_within(tokens, from, to.min(tokens.count), k)
}

// Whether a token is a line feed.
fn is_feed(t: Token) -> bool
    ensures { result ≡ eqb t.kind newline }
{
    t.kind == kind::NEWLINE
}

// The index behind the first line feed from an index on. A walk over all lines goes by this where memory is slow: the next place
// to read does not wait for what was read last, as it does by next_line.
pub(crate) fn behind_feed(tokens: &Tokens, at: usize) -> usize
    requires { at < tokens.now.count }
    ensures { result ≡ at + 1 + line_length (drop at (tokens_of tokens.now)) }
{
    for i in at..tokens.count {
        if is_feed(tokens.known(i)) {
            return i + 1;
        }
    }
    tokens.count + 1
}

// The index behind the line that begins with the token t at an index and ends at its first line feed: as t has
// it where the tokens are few, the line holds nothing or a comment alone, or it is long, so that it is not gone
// over once more; else behind the line feed.
pub fn behind_line(tokens: &Tokens, at: usize, t: Token) -> usize
    requires inside { (at < tokens.now.count)
        × (at + 64 < 2 ^ 64) }
    requires fed { behind at t ≡ line_length (drop at (tokens_of tokens.now)) }
    ensures { result ≡ at + 1 + behind at t }
{
    let next = entry::next_line(t, at);
    if tokens.count < FEW || t.kind < entry::ITEM || at + LONG <= next {
        return next;
    }
    behind_feed(tokens, at)
}
