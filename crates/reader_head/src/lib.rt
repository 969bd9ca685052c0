// The head of a machine from the first declarations and the tokens in a row of words whose lines have entries.
#![tactic(auto)]

ghost use Rattle.std.specs.Prelude.{◌≡◌, ◌≤◌};
ghost use Rattle.tokens.specs.Listed.{tokens_of};
ghost use Rattle.reader_head.specs.Heads.{said, place_at, text_of, text_at, kind_of, kind_at, order_of, decoder_of, decoder_at};
ghost use Rattle.reader_head.specs.Heads.{tapes_at, blank_at, start_at, declared_in, map_in, head_at};

use assembler::declarations::line;
use assembler::entry;
use lexer::{MAX_TAPES, keyword};
use machine::{BitOrder, Counts, Declared, Decoder, Head, Kind, SourceMap, Span};
use parser::{DECLARATIONS, ItemKind};
use sheet::rules;
use sheet::rules::BLANK;
use tokens::{Token, Tokens, span_of};

// Here and below the tokens and a line's index are two parameters: each part of a head stands in another line, and Tokens is
// another crate's, so that these are no methods of it.

// The token j behind the first of the line f, if there is such a line.
#[tactic(auto, using(crate::proofs::HeadLaws::said_laws))]
fn said(tokens: &Tokens, f: u32, j: usize) -> Option<Token>
    requires { j ≤ 2 }
    ensures { result ≡ said (tokens_of tokens.now) f j }
{
    let Some(i) = line(f, tokens.len()) else {
        return None;
    };
    Some(tokens.at(i + j))
}

// The place of the token j behind the first of the line f; none if there is no such line.
#[tactic(auto, using(crate::proofs::HeadLaws::parts))]
fn place_at(tokens: &Tokens, f: u32, j: usize) -> Span
    requires { j ≤ 2 }
    ensures { result ≡ place_at (tokens_of tokens.now) f j }
{
    said(tokens, f, j).map_or(Span::NONE, span_of)
}

// The place of the string that the line f declares, between its quotes.
#[tactic(auto, using(crate::proofs::HeadLaws::parts))]
fn text_at(tokens: &Tokens, f: u32) -> Span
    ensures { result ≡ text_at (tokens_of tokens.now) f }
{
    said(tokens, f, entry::BARE_VALUE).map_or(Span::NONE, text_of)
}

// The kind that the line f declares.
#[tactic(auto, using(crate::proofs::HeadLaws::parts))]
fn kind_at(tokens: &Tokens, f: u32) -> Kind
    ensures { result ≡ kind_at (tokens_of tokens.now) f }
{
    said(tokens, f, entry::BARE_VALUE).map_or(Kind::Transducer, |t| kind_of(t.value))
}

// The decoder that the line f declares.
#[tactic(auto, using(crate::proofs::HeadLaws::parts))]
fn decoder_at(tokens: &Tokens, f: u32, blank: u32) -> Decoder
    ensures { result ≡ decoder_at blank (tokens_of tokens.now) f }
{
    let Some(t) = said(tokens, f, entry::BARE_VALUE) else {
        return Decoder::Word;
    };
    decoder_of(blank, t.value, tokens.at(f as usize + entry::VALUE))
}

// The tapes that the line f declares.
#[tactic(auto, using(crate::proofs::HeadLaws::parts))]
fn tapes_at(tokens: &Tokens, f: u32) -> u8
    ensures { result ≡ tapes_at (tokens_of tokens.now) f }
{
    match said(tokens, f, entry::VALUE) {
        Some(t) if t.value <= MAX_TAPES => t.value as u8,
        Some(_) | None => 1,
    }
}

// The place of the start's name, s where the line f declares none.
#[tactic(auto, using(crate::proofs::HeadLaws::said_laws))]
fn start_at(tokens: &Tokens, f: u32, s: Span) -> Span
    ensures { result ≡ start_at (tokens_of tokens.now) f s }
{
    if line(f, tokens.len()).is_some() {
        return place_at(tokens, f, entry::VALUE);
    }
    s
}

// Where the parts are declared.
#[tactic(auto, using(crate::proofs::HeadLaws::map_in_lem))]
fn map_in(tokens: &Tokens, first: &[u32; DECLARATIONS]) -> SourceMap
    ensures { result ≡ map_in (tokens_of tokens.now) first.now }
{
    SourceMap {
        kind: place_at(tokens, first[ItemKind::Kind as usize], 0),
        input: place_at(tokens, first[ItemKind::Input as usize], entry::BARE_VALUE),
        tapes: place_at(tokens, first[ItemKind::Tapes as usize], entry::VALUE),
        start: place_at(tokens, first[ItemKind::Start as usize], entry::VALUE),
        states: place_at(tokens, first[ItemKind::States as usize], 0),
    }
}

// The place between a string's quotes.
fn text_of(t: Token) -> Span
    ensures { result ≡ text_of t }
{
    Span {
        start: t.start.wrapping_add(t.value),
        end: t.end.saturating_sub(1),
    }
}

// The kind that a word says.
#[tactic(auto, using(chars::proofs::Tests::tests), unfolding(crate::specs::Heads::kind_of))]
fn kind_of(v: u32) -> Kind
    ensures { result ≡ kind_of v }
{
    match v {
        keyword::ACCEPTOR => Kind::Acceptor,
        keyword::ENUMERATOR => Kind::Enumerator,
        keyword::BEAVER => Kind::Beaver,
        _ => Kind::Transducer,
    }
}

// The order of bits that a word says.
#[tactic(auto, using(chars::proofs::Tests::tests), unfolding(crate::specs::Heads::order_of))]
fn order_of(v: u32) -> BitOrder
    ensures { result ≡ order_of v }
{
    if v == keyword::MSB {
        BitOrder::Msb
    } else {
        BitOrder::Lsb
    }
}

// The decoder that a word says, and the token behind it.
#[tactic(auto, using(chars::proofs::Tests::tests), unfolding(crate::specs::Heads::decoder_of))]
fn decoder_of(blank: u32, v: u32, t: Token) -> Decoder
    ensures { result ≡ decoder_of blank v t }
{
    match v {
        keyword::UNARY => Decoder::Unary(rules::resolve(blank, t)),
        keyword::BINARY => Decoder::Binary(order_of(t.value)),
        _ => Decoder::Word,
    }
}

// Which parts are declared.
#[tactic(auto, using(crate::proofs::HeadLaws::declarations))]
fn declared_in(count: usize, first: &[u32; DECLARATIONS]) -> Declared
    ensures { result ≡ declared_in count first.now }
{
    Declared {
        states: line(first[ItemKind::States as usize], count).is_some(),
        input_alphabet: line(first[ItemKind::InputAlphabet as usize], count).is_some(),
        tape_alphabet: line(first[ItemKind::TapeAlphabet as usize], count).is_some(),
        start: line(first[ItemKind::Start as usize], count).is_some(),
        blank: line(first[ItemKind::Blank as usize], count).is_some(),
    }
}

// The blank that the line f declares.
#[tactic(auto, using(crate::proofs::HeadLaws::parts))]
pub fn blank_at(tokens: &Tokens, f: u32) -> u32
    ensures { result ≡ blank_at (tokens_of tokens.now) f }
{
    said(tokens, f, entry::VALUE).map_or(BLANK, |t| rules::resolve(BLANK, t))
}

// The head, given the place of the first state and the section counts.
#[tactic(auto, using(crate::proofs::HeadLaws::head_in))]
pub fn head(tokens: &Tokens, first: &[u32; DECLARATIONS], s: Span, n: Counts) -> Head
    ensures { result ≡ head_at (tokens_of tokens.now) first.now s n }
{
    let blank = blank_at(tokens, first[ItemKind::Blank as usize]);
    Head {
        output: decoder_at(tokens, first[ItemKind::Output as usize], blank),
        name: text_at(tokens, first[ItemKind::Machine as usize]),
        input: text_at(tokens, first[ItemKind::Input as usize]),
        kind: kind_at(tokens, first[ItemKind::Kind as usize]),
        tapes: tapes_at(tokens, first[ItemKind::Tapes as usize]),
        blank,
        declared: declared_in(tokens.len(), first),
        start: start_at(tokens, first[ItemKind::Start as usize], s),
        map: map_in(tokens, first),
        counts: n,
    }
}
