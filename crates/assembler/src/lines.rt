// Parses the lines, once, and enters the result of each in its first token. The tokens are written here, so that they are no
// Tokens, which lends them to be read alone: the row, their number and an index go to each function that writes. Of a struct that
// is lent to be written each contract would also say that it holds the same row and number.
ghost use Rattle.std.specs.Prelude.{◌≡◌, ◌+◌, ◌*◌, ◌<◌, ◌≤◌, ◌^◌, length, drop, set, Err};
ghost use Rattle.std.proofs.lemmas.List.Edits.{sets};
ghost use Rattle.lexer.specs.Words.{onto};
ghost use Rattle.tokens.specs.Row.{tokens_in};
ghost use Rattle.tokens.specs.Listed.{tokens_of};
ghost use Rattle.parser.specs.Lines.{Read, line, line_end};
ghost use Rattle.assembler.specs.Rows.{rows};
ghost use Rattle.assembler.specs.Entered.{words_of, flat, item_number, item_entry, PartsFit, counts_of, parts_of};
ghost use Rattle.assembler.specs.Entered.{enter_at, entered};

use crate::entry;
use lexer::{TOKEN_WORDS, kind};
use parser::{Failure, Item, ItemKind, Line, Parts, items};
use tokens::{Token, Tokens};

// The number of an item, in the source's order. ItemKind is declared in parser, so that no From can stand
// here, and machine's numbers another table.
#[tactic(auto, unfolding(crate::specs::Entered::item_number))]
pub(crate) fn item_number(k: ItemKind) -> u32
    ensures { result ≡ item_number k }
{
    k as u32
}

// A token at an index. Lexer's `push` stores four numbers in this way; it is private to lexer, where no Token is known, and a
// call of it would take the token apart to name its four parts in order.
fn put(work: &mut [u32], at: usize, t: Token)
    requires { 4 * at + 4 ≤ length work.old }
    ensures { work.new ≡ sets work.old (4 * at) (words_of t) }
{
    let o = TOKEN_WORDS * at;
    work[o] = t.kind;
    work[o + 1] = t.start;
    work[o + 2] = t.end;
    work[o + 3] = t.value;
}

// The words of the tokens from an index on.
fn rest<'a>(tokens: &Tokens<'a>, at: usize) -> &'a [u32]
    requires { at < tokens.now.count }
    ensures { tokens_in result.now ≡ drop at (tokens_of tokens.now) }
{
    &tokens.words[TOKEN_WORDS * at..TOKEN_WORDS * tokens.count]
}

// The line at an index, or why it is refused.
fn line_at(tokens: &Tokens, at: usize) -> Result<Line, Failure>
    requires { at < tokens.now.count }
    ensures { result ≡ line (drop at (tokens_of tokens.now)) 0 }
{
    items::line(rest(tokens, at), 0)
}

// The number of tokens in front of the line feed of the line at an index.
fn size_of(tokens: &Tokens, at: usize) -> usize
    requires { at < tokens.now.count }
    ensures { result ≡ line_end (drop at (tokens_of tokens.now)) 0 }
{
    items::line_end(rest(tokens, at), 0)
}

// The parts of a rule, in its `(` and in the comma behind its state.
#[tactic(auto, using(crate::proofs::LineLaws::parts_put))]
fn put_parts(work: &mut [u32], count: usize, at: usize, q: Parts)
    requires { (4 * count ≤ length work.old)
        × (at + 3 < count)
        × PartsFit at q }
    ensures { work.new
        ≡ onto (flat (set (set (rows count work.old) (at + 1) (counts_of q)) (at + 3) (parts_of at q))) work.old }
{
    let counts = Token {
        kind: kind::L_PAREN,
        start: q.reads as u32,
        end: q.writes as u32,
        value: q.dirs as u32,
    };
    put(work, at + entry::COUNTS, counts);
    let parts = Token {
        kind: kind::COMMA,
        start: (at + q.to) as u32,
        end: (at + q.write) as u32,
        value: (at + q.dir) as u32,
    };
    put(work, at + entry::PARTS, parts);
}

// The entry of an item of the line at an index.
#[tactic(auto, using(crate::proofs::LineLaws::items))]
fn put_item(work: &mut [u32], at: usize, x: Item)
    requires { (4 * at + 4 ≤ length work.old)
        × (at + x.newline < 2 ^ 32) }
    ensures { work.new ≡ sets work.old (4 * at) (words_of (item_entry at x)) }
{
    let span = x.span;
    let k = x.kind;
    let t = Token {
        kind: entry::ITEM + item_number(k),
        start: span.start,
        end: span.end,
        value: (at + x.newline) as u32,
    };
    put(work, at, t);
}

// An item of the line at an index, entered.
fn enter_item(work: &mut [u32], count: usize, at: usize, x: Item)
    requires room { 4 * count ≤ length work.old }
    requires inside { (at < count)
        × (count < 2 ^ 31) }
    requires read { line (drop at (rows count work.old)) 0 ≡ Read x }
    ensures { work.new ≡ onto (flat (enter_at at (rows count work.old))) work.old }
{
    put_item(work, at, x);
    if let ItemKind::Transition = x.kind {
        put_parts(work, count, at, x.parts);
    }
}

// A failure of the line at an index, entered.
#[tactic(auto, using(crate::proofs::LineLaws::failures))]
fn enter_failed(work: &mut [u32], count: usize, at: usize, failure: Failure)
    requires room { 4 * count ≤ length work.old }
    requires inside { (at < count)
        × (count < 2 ^ 31) }
    requires failed { line (drop at (rows count work.old)) 0 ≡ Err failure }
    ensures { work.new ≡ onto (flat (enter_at at (rows count work.old))) work.old }
{
    let n = size_of(&Tokens { words: work, count }, at);
    let span = failure.span;
    let t = Token {
        kind: entry::FAILED + failure.code.number(),
        start: span.start,
        end: span.end,
        value: (at + n) as u32,
    };
    put(work, at, t);
}

// The line at an index, entered.
#[tactic(auto, using(crate::proofs::LineLaws::nothing))]
fn enter(work: &mut [u32], count: usize, at: usize)
    requires { (4 * count ≤ length work.old)
        × (at < count)
        × (count < 2 ^ 31) }
    ensures { work.new ≡ onto (flat (enter_at at (rows count work.old))) work.old }
{
    match line_at(&Tokens { words: work, count }, at) {
        Ok(Line::Blank) => {}
        Ok(Line::Comment(_)) => {}
        Ok(Line::Item(x)) => enter_item(work, count, at, x),
        Err(failure) => enter_failed(work, count, at, failure),
    }
}

// All lines, entered. Where a line ends stands in its entry, so that no `for` counts the steps.
pub(crate) fn lines(work: &mut [u32], count: usize)
    requires { (4 * count ≤ length work.old)
        × (count < 2 ^ 31) }
    ensures { work.new ≡ onto (flat (entered (rows count work.old))) work.old }
{
    let mut at = 0;
    while at < count {
        enter(work, count, at);
        at = entry::next_line(tokens::token_at(work, at), at);
    }
}
