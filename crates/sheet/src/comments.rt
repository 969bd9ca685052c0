// Comments: header, trailing, and where those that lead a rule begin. The sheet is written and the tokens are read, and no fact
// ties them together, so that they are two parameters.
ghost use Rattle.std.specs.Prelude.{◌≡◌, ◌+◌, ◌-◌, ◌^◌, ◌<◌, ◌≤◌, [], ◌∷◌, length};
ghost use Rattle.tokens.specs.Listed.{tokens_of};
ghost use Rattle.language.specs.Layout.{flat};
ghost use Rattle.assembler.specs.Entries.{entries};
ghost use Rattle.assembler.specs.EntryNumbers.{item};
ghost use Rattle.assembler.specs.Feeds.{Fed, CommentsLast};
ghost use Rattle.sheet.specs.Puts.{Puts};
ghost use Rattle.sheet.specs.Comments.{text_of, text_words, comments_in, between, nothing, passed, passed_all};
ghost use Rattle.sheet.specs.Comments.{lead_from, header_of, header, trailing};
ghost use Rattle.sheet.specs.Rules.{rule_lengths};

use crate::lengths;
use crate::put::Sheet;
use assembler::{entry, seek};
use diag::Span;
use lexer::kind;
use tokens::{Token, Tokens};

// The comments that wait for an item: where they begin, and where the block that goes on begins. `from` is none as long as no
// item or failed line came, and they then begin with the row.
#[derive(Clone, Copy, Debug, PartialEq, Eq)]
pub struct Pending {
    pub from: Option<usize>,
    pub block: usize,
}

impl Pending {
    // No comment is pending.
    pub const NOTHING: Self = Self {
        from: None,
        block: 0,
    };

    // What is pending behind the line that begins with the token t at an index.
    pub(crate) fn passed(self, t: Token, at: usize) -> Self
        requires { at + 2 < 2 ^ 64 }
        ensures { result ≡ passed self at t }
    {
        let block = entry::next_line(t, at);
        if entry::ITEM <= t.kind {
            return Self {
                from: Some(block),
                block,
            };
        }
        if t.kind == kind::COMMENT {
            return self;
        }
        Self { block, ..self }
    }

    // Where the comments that lead a rule begin.
    #[tactic(auto, unfolding(crate::specs::Comments::lead_from))]
    pub(crate) fn lead_from(self) -> usize
        ensures { result ≡ lead_from self }
    {
        self.from.unwrap_or(self.block)
    }
}

// The place of a comment's text.
pub(crate) fn text_of(t: Token) -> Span
    ensures { result ≡ text_of t }
{
    Span {
        start: t.start.wrapping_add(t.value),
        end: t.end,
    }
}

// A token's text, if it is a comment.
fn comment(sheet: &mut Sheet, t: Token)
    ensures { Puts (flat text_words (comments_in (t ∷ []))) sheet.old sheet.new }
{
    if t.kind == kind::COMMENT {
        sheet.place(text_of(t));
    }
}

// The comments from the index `from` to before `to`: two numbers, since most callers look at one of them by itself too.
pub(crate) fn comments(sheet: &mut Sheet, tokens: &Tokens, from: usize, to: usize)
    ensures { Puts (flat text_words (between (tokens_of tokens.now) from to)) sheet.old sheet.new }
{
    for i in from..to {
        comment(sheet, tokens.at(i));
    }
}

// How many comments stand from the index `from` to before `to`.
// With `filter` and `count` the goal `returns` stays open: no law of the library ties a count
// over a range of indices to a list's length.
pub(crate) fn count_between(tokens: &Tokens, from: usize, to: usize) -> usize
    ensures { result ≡ length (between (tokens_of tokens.now) from to) }
{
    let mut n = 0;
    for i in from..to {
        if tokens.at(i).kind == kind::COMMENT {
            n += 1;
        }
    }
    n
}

// The comments from the index `from` to before the line feed, at the index `end`, of a declaration that begins at the index i.
// Its line has none but at its end, so a long one is not gone over.
fn declared(sheet: &mut Sheet, tokens: &Tokens, from: usize, i: usize, end: usize)
    requires { between (tokens_of tokens.now) i end ≡ between (tokens_of tokens.now) (end - 1) end }
    ensures { Puts (flat text_words (between (tokens_of tokens.now) from end)) sheet.old sheet.new }
{
    if i < from || end <= i {
        return comments(sheet, tokens, from, end);
    }
    comments(sheet, tokens, from, i);
    comments(sheet, tokens, end - 1, end);
}

// The header comments of the line that begins with the token t at the index i.
fn header_of(sheet: &mut Sheet, tokens: &Tokens, p: Pending, i: usize, t: Token)
    requires { item ≤ t.kind
        → between (tokens_of tokens.now) i t.value ≡ between (tokens_of tokens.now) (t.value - 1) t.value }
    ensures { Puts (flat text_words (header_of (tokens_of tokens.now) p t)) sheet.old sheet.new }
{
    if t.kind < entry::ITEM {
        return;
    }
    if t.kind < entry::RULE {
        return declared(sheet, tokens, p.from.unwrap_or(0), i, t.value as usize);
    }
    if t.kind == entry::RULE && p.from.is_none() {
        comments(sheet, tokens, 0, p.block);
    }
}

// What is pending behind all lines, and how many words the rules take.
#[derive(Clone, Copy, Debug, PartialEq, Eq)]
pub struct Headed {
    pub left: Pending,
    pub rules: usize,
}

// The header comments of a row, and in the same walk over its lines the number of its rules' words. Where a line ends is found
// while it is read, so that no `for` counts the steps. That the tokens are few is asked here and there: a Tokens may hold more.
pub fn header(sheet: &mut Sheet, tokens: &Tokens) -> Headed
    requires few { tokens.now.count < 2 ^ 32 }
    requires lengths { rule_lengths (tokens_of tokens.now) < 2 ^ 64 }
    requires fed { Fed (tokens_of tokens.now) }
    requires last { CommentsLast (tokens_of tokens.now) }
    ensures written { Puts (flat text_words (header (tokens_of tokens.now))) sheet.old sheet.new }
    ensures left { result.left ≡ passed_all nothing (entries (tokens_of tokens.now)) }
    ensures rules { result.rules ≡ rule_lengths (tokens_of tokens.now) }
{
    let mut left = Pending::NOTHING;
    let mut rules = 0;
    let mut i = 0;
    while i < tokens.count {
        let t = tokens.known(i);
        header_of(sheet, tokens, left, i, t);
        rules += lengths::line_length(tokens, left, i, t);
        left = left.passed(t, i);
        i = seek::behind_line(tokens, i, t);
    }
    if left.from.is_none() {
        comments(sheet, tokens, 0, tokens.count);
    }
    Headed { left, rules }
}

// The trailing comments of a row behind whose lines p is pending.
pub fn trailing(sheet: &mut Sheet, tokens: &Tokens, p: Pending)
    requires { p ≡ passed_all nothing (entries (tokens_of tokens.now)) }
    ensures { Puts (flat text_words (trailing (tokens_of tokens.now))) sheet.old sheet.new }
{
    if let Some(from) = p.from {
        comments(sheet, tokens, from, tokens.count);
    }
}
