// Scans: how far a word, a number, a line or a string goes.
ghost use Rattle.std.specs.Prelude.{◌≡◌, true, false, ◌+◌, ◌-◌, ◌*◌, ◌<◌, ◌≤◌, min};
ghost use Rattle.chars.specs.Utf8.{sizes};
ghost use Rattle.lexer.specs.Tokens.{is_word_continue, is_ascii_digit, is_whitespace, run};
ghost use Rattle.lexer.specs.Words.{value};
ghost use Rattle.lexer.specs.Places.{rest, starts_with, line_at, string_end};

use crate::{Line, MAX_TAPES, block, kind, quick};
use chars::Class;

// Whether c, which is above ASCII, can continue a word.
fn continues_above(c: u32) -> bool
    requires { 0x80 ≤ c }
    ensures { result ≡ is_word_continue c }
{
    matches!(chars::class_of(c), Class::Letter | Class::Digit)
}

// Whether c can continue a word: ASCII by the table, whose leads up to a quoted character's are those of
// letters, the underscore, digits and the quote.
pub(crate) fn is_word_continue(c: u32) -> bool
    ensures { result ≡ is_word_continue c }
{
    if c < 0x80 {
        return quick::lead_of(c) <= kind::QUOTED;
    }
    continues_above(c)
}

// Whether c is an ASCII digit, by the table: the match of `class_of` takes three times as long where a text is digits.
fn is_ascii_digit(c: u32) -> bool
    ensures { result ≡ is_ascii_digit c }
{
    c < 0x80 && quick::lead_of(c) == kind::NUMBER
}

// Whether c is white space, by its class.
fn space_by_class(c: u32) -> bool
    ensures { result ≡ is_whitespace c }
{
    chars::class_of(c) == Class::Space
}

// Whether c is white space: a space first, which most of it is; other ASCII by the table, any other by its class.
pub(crate) fn is_whitespace(c: u32) -> bool
    ensures { result ≡ is_whitespace c }
{
    if c == 0x20 {
        return true;
    }
    if c < 0x80 {
        return matches!(quick::lead_of(c), kind::NEWLINE | quick::BLANK);
    }
    space_by_class(c)
}

// Whether the character at a place is c, an ASCII character.
#[tactic(auto, using(crate::proofs::Pieces::starts))]
pub(crate) fn starts_with(text: &[u8], at: usize, c: u8) -> bool
    requires { c < 0x80 }
    ensures { result ≡ starts_with c (rest text.now at) }
{
    at < text.len() && text[at] == c
}

// Where the characters that continue a word end.
#[tactic(auto, using(crate::proofs::Scans::runs))]
pub(crate) fn word_end(text: &[u8], at: usize) -> usize
    ensures { result ≡ at + sizes (run is_word_continue (rest text.now at)) }
{
    let mut i = at;
    while let Some((c, next)) = chars::char_at(text, i) {
        if !is_word_continue(c) {
            return i;
        }
        i = next;
    }
    i
}

// Where the digits at a place end, and their value, one more than MAX_TAPES for all above it.
pub(crate) fn digits(text: &[u8], at: usize) -> (usize, u32)
    ensures end { result.0 ≡ at + sizes (run is_ascii_digit (rest text.now at)) }
    ensures value { result.1 ≡ min (value (run is_ascii_digit (rest text.now at))) 256 }
{
    let mut i = at;
    let mut v = 0;
    while let Some((c, next)) = chars::char_at(text, i) {
        if !is_ascii_digit(c) {
            return (i, v);
        }
        v = (v * 10 + (c - 0x30)).min(MAX_TAPES + 1);
        i = next;
    }
    (i, v)
}

// Where the line ends, and where it ends without white space.
#[tactic(auto, using(crate::proofs::Scans::lines))]
pub(crate) fn line_end(text: &[u8], at: usize) -> Line
    ensures { result ≡ line_at at (rest text.now at) }
{
    let Line {
        mut trimmed,
        end: mut i,
    } = block::line_part(text, at);
    while let Some((c, next)) = chars::char_at(text, i) {
        if c == 10 {
            return Line { trimmed, end: i };
        }
        i = next;
        if !is_whitespace(c) {
            trimmed = next;
        }
    }
    Line { trimmed, end: i }
}

// Where a string ends, from behind its quote: the place behind the closing quote, or None where there is none on the line. Tests
// and no `match`, since a state is asked between two of the character.
#[tactic(auto, using(crate::proofs::Scans::strings))]
pub(crate) fn string_end(text: &[u8], at: usize) -> Option<usize>
    ensures { result ≡ string_end false at (rest text.now at) }
{
    let mut i = block::string_part(text, at);
    let mut escaped = false;
    while let Some((c, next)) = chars::glyph_at(text, i) {
        if c == 10 {
            return None;
        }
        if escaped {
            escaped = false;
            i = next;
        } else if c == 0x22 {
            return Some(next);
        } else if c == 0x5C {
            escaped = true;
            i = next;
        } else {
            i = chars::above_end(text, next);
        }
    }
    None
}
