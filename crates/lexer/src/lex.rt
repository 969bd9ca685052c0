// The token at a place of the text.
ghost use Rattle.std.specs.Prelude.{◌≡◌, ◌+◌, ◌<◌, ◌≤◌, true, ◌∷◌, length};
ghost use Rattle.chars.specs.Utf8.{size, sizes};
ghost use Rattle.lexer.specs.Tokens.{is_word_continue, is_ascii_digit, run, step, word_step, number_step, string_step, quoted_step, comment_step, slash_step, other_step};
ghost use Rattle.lexer.specs.Words.{sign_number};
ghost use Rattle.lexer.specs.Kinds.{kind_word, found};
ghost use Rattle.lexer.specs.Places.{Tok, rest, piece_of, piece};
ghost use Rattle.lexer.specs.Quick.{WordAt};

use crate::kind::TokenKind;
use crate::{Piece, keyword, names, scan};
use chars::Class;

// The kind of a sign.
#[tactic(auto, using(chars::proofs::Tests::tests, crate::proofs::Pieces::sign_of), unfolding(crate::specs::Words::sign_number))]
fn sign_kind(c: u32) -> TokenKind
    ensures { kind_word result ≡ sign_number c }
{
    match c {
        0x28 => TokenKind::LParen,
        0x29 => TokenKind::RParen,
        0x7B => TokenKind::LBrace,
        0x7D => TokenKind::RBrace,
        0x2C => TokenKind::Comma,
        0x3D => TokenKind::Eq,
        0x2A => TokenKind::Star,
        _ => TokenKind::Other,
    }
}

// The value of the word at a place that begins with an ASCII character, from where it ends. More than
// a conversion: a longer word is looked up.
#[tactic(auto, using(crate::proofs::Pieces::word_fits, crate::proofs::Leads::values))]
pub(crate) fn word_value(text: &[u8], at: usize, end: usize) -> u32
    requires word { WordAt text.now at }
    requires end { end ≡ at + 1 + sizes (run is_word_continue (rest text.now (at + 1))) }
    ensures { Tok 0 end result end ≡ piece at (rest text.now at) }
{
    if end == at + 1 {
        return u32::from(text[at]);
    }
    keyword::LONGER + names::keyword_of(names::part_of(text, at, end))
}

// A double quote at a place: a string, or the rest of the line, trimmed.
fn string(text: &[u8], at: usize) -> Piece
    requires { at < length text.now }
    ensures { found result ≡ piece_of at (at + 1) (rest text.now (at + 1)) (string_step (rest text.now (at + 1))) }
{
    if let Some(end) = scan::string_end(text, at + 1) {
        return Piece::token(TokenKind::Str, end, 1);
    }
    let line = scan::line_end(text, at + 1);
    line.token(TokenKind::UnterminatedString, 0)
}

// A quote at a place: one character other than a line feed, and a quote; or the lone quote.
fn quoted(text: &[u8], at: usize) -> Piece
    requires { at < length text.now }
    ensures { found result ≡ piece_of at (at + 1) (rest text.now (at + 1)) (quoted_step (rest text.now (at + 1))) }
{
    if let Some((c, next)) = chars::glyph_at(text, at + 1) {
        if c != 10 && scan::starts_with(text, next, b'\'') {
            return Piece::token(TokenKind::Quoted, next + 1, c);
        }
    }
    Piece::token(TokenKind::UnterminatedQuote, at + 1, 0)
}

// Two slashes at a place: a comment up to the line's end, trimmed; one space behind the slashes is not part of its text.
fn comment(text: &[u8], at: usize) -> Piece
    requires { at + 1 < length text.now }
    ensures { found result ≡ piece_of at (at + 1) (0x2F ∷ rest text.now (at + 2)) (comment_step (rest text.now (at + 2))) }
{
    let line = scan::line_end(text, at + 2);
    if line.trimmed != at + 2 && scan::starts_with(text, at + 2, b' ') {
        return line.token(TokenKind::Comment, 3);
    }
    line.token(TokenKind::Comment, 2)
}

// A slash at a place: a comment, or the slash alone.
fn slash(text: &[u8], at: usize) -> Piece
    requires { at < length text.now }
    ensures { found result ≡ piece_of at (at + 1) (rest text.now (at + 1)) (slash_step (rest text.now (at + 1))) }
{
    if scan::starts_with(text, at + 1, b'/') {
        return comment(text, at);
    }
    Piece::token(TokenKind::Other, at + 1, 0x2F)
}

// The first character of what stands at a place, and the place behind it.
#[derive(Clone, Copy)]
struct Head<'a> {
    text: &'a [u8],
    at: usize,
    c: u32,
    next: usize,
    ghost behind: { next ≡ at + size c },
    ghost read: { rest text.now at ≡ c ∷ rest text.now next },
    ghost inside: { next ≤ length text.now },
}

impl Head<'_> {
    ghost use Rattle.lexer.specs.Heads.{begins};

    // A word whose first character this is.
    fn word(&self) -> Piece
        ensures { found result ≡ begins self.now word_step }
    {
        let end = scan::word_end(self.text, self.next);
        if end == self.next {
            return Piece::token(TokenKind::Word, end, self.c);
        }
        let k = names::keyword_of(names::part_of(self.text, self.at, end));
        Piece::token(TokenKind::Word, end, keyword::LONGER + k)
    }

    // A number whose first digit this is.
    fn number(&self) -> Piece
        requires { is_ascii_digit self.now.c ≡ true }
        ensures { found result ≡ begins self.now number_step }
    {
        let (end, value) = scan::digits(self.text, self.at);
        Piece::token(TokenKind::Number, end, value)
    }

    // The sign that this is.
    fn sign(&self) -> Piece
        ensures { found result ≡ Tok (sign_number self.now.c) self.now.next self.now.c self.now.next }
    {
        Piece::token(sign_kind(self.c), self.next, self.c)
    }

    // A character of no class that is no quote and no slash: an underscore, the beginning of a word; or a token of its own.
    fn other(&self) -> Piece
        requires unquoted { (self.now.c ≡ 0x22 → ⊥)
            × (self.now.c ≡ 0x27 → ⊥) }
        requires no_slash { self.now.c ≡ 0x2F → ⊥ }
        ensures { found result ≡ begins self.now other_step }
    {
        if self.c == 0x5F {
            self.word()
        } else {
            self.sign()
        }
    }

    // What begins with a character that is no quote and no slash.
    fn unmarked(&self) -> Piece
        requires unquoted { (self.now.c ≡ 0x22 → ⊥)
            × (self.now.c ≡ 0x27 → ⊥) }
        requires no_slash { self.now.c ≡ 0x2F → ⊥ }
        ensures { found result ≡ begins self.now step }
    {
        if self.c == 10 {
            return Piece::token(TokenKind::Newline, self.next, 0);
        }
        match chars::class_of(self.c) {
            Class::Space => Piece::Gap(self.next),
            Class::Letter => self.word(),
            Class::Digit => self.number(),
            Class::Sign => self.sign(),
            Class::Other => self.other(),
        }
    }

    // What begins with the character.
    fn piece(&self) -> Piece
        ensures { found result ≡ begins self.now step }
    {
        match self.c {
            0x27 => quoted(self.text, self.at),
            0x22 => string(self.text, self.at),
            0x2F => slash(self.text, self.at),
            _ => self.unmarked(),
        }
    }
}

// What stands at a place. Quoted characters first, which are told by their first byte: lists of symbols are full of them.
pub(crate) fn piece_at(text: &[u8], at: usize) -> Piece
    ensures { found result ≡ piece at (rest text.now at) }
{
    if scan::starts_with(text, at, b'\'') {
        return quoted(text, at);
    }
    match chars::char_at(text, at) {
        Some((c, next)) => Head { text, at, c, next }.piece(),
        None => Piece::End,
    }
}
