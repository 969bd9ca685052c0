// Characters of a text: UTF-8 (RFC 3629), the set that a description may use, and the classes of code points.
// A text and a place in it are two parameters: what a function answers is a place of the whole text, which a slice from the place
// on would have to be counted back to, and a cursor would make each contract say that it keeps the text.
#![tactic(auto)]

ghost use Rattle.std.specs.Prelude.{◌≡◌, ℕ, true, ◌+◌, ◌*◌, ◌^◌, ◌<◌, ◌≤◌, length, get_or, drop, IfSome, IfNone, Some, false, nat_le, position, unwrap_or, take_while};
ghost use Rattle.chars.specs.Utf8.{scalar, size, sizes, encode_one, tail_of, one, form, front, decode, valid_up_to};
ghost use Rattle.chars.specs.Decoded.{decoded_at, NoneMeans};
ghost use Rattle.chars.specs.Ranges.{within};
ghost use Rattle.chars.specs.Blocks.{ors};
ghost use Rattle.chars.specs.Short.{is_tail, is_two, two_code, plain_two, plain_next, Short, is_short};
ghost use Rattle.chars.specs.Class.{admitted, first_outside, class_of};
ghost use Rattle.chars.specs.Decoded.{plain_up_to, Passes};

use std::ops::Range;

// The last of the three ranges of the set: its characters of three bytes.
const LAST_FROM: u32 = 0x2190;

const LAST_TO: u32 = 0x243F;

// The class of a code point, as the lexer asks for it.
#[derive(Clone, Copy, PartialEq, Eq, Debug)]
pub enum Class {
    Letter,
    Digit,
    Space,
    Sign,
    Other,
}

// How many bytes a code point takes: one, and one more for each comparison that holds. No branch is taken, so that characters of
// all sizes take the same time.
#[tactic(auto, using(crate::proofs::Sums::sums))]
pub fn len_utf8(c: u32) -> usize
    ensures size { result ≡ size c }
    ensures form { result ≡ length (encode_one c) }
{
    1 + (0x80 <= c) as usize + (0x800 <= c) as usize + (0x10000 <= c) as usize
}

// Whether a code point is a scalar value: no surrogate, and at most 10FFFF.
#[tactic(auto, using(crate::proofs::Tests::tests), unfolding(crate::specs::Utf8::scalar))]
fn is_scalar(c: u32) -> bool
    ensures { result ≡ scalar c }
{
    matches!(c, 0..0xD800 | 0xE000..0x110000)
}

// The character of a form of n bytes at a place, by the form's value.
#[tactic(auto, using(crate::proofs::Tests::tests), unfolding(crate::specs::Utf8::form, crate::specs::Decoded::decoded_at))]
fn formed(at: usize, n: usize, code: u32) -> Option<(u32, usize)>
    requires { at + n < 2 ^ 64 }
    ensures { result ≡ decoded_at at (form n code) }
{
    if is_scalar(code) && len_utf8(code) == n {
        Some((code, at + n))
    } else {
        None
    }
}

// The six bits of the continuation byte at a place, if one stands there.
fn tail_at(text: &[u8], at: usize) -> Option<u32>
    ensures none { IfNone result (64 ≤ tail_of (get_or text.now at 0)) }
    ensures some { IfSome result (λ b. (b ≡ tail_of (get_or text.now at 0))
        × (b < 64)
        × (at < length text.now)) }
{
    match *text.get(at)? {
        b @ 0x80..0xC0 => Some(u32::from(b - 0x80)),
        _ => None,
    }
}

// The character at a place whose first byte is above ASCII.
fn long_at(text: &[u8], at: usize) -> Option<(u32, usize)>
    requires inside { at < length text.now }
    requires above { 0x80 ≤ get_or text.now at 0 }
    ensures { result ≡ decoded_at at (front (drop at text.now)) }
{
    let a = u32::from(text[at]);
    if a < 0xC0 {
        return None;
    }
    let b = tail_at(text, at + 1)?;
    if a < 0xE0 {
        return formed(at, 2, (a - 0xC0) * 64 + b);
    }
    let c = tail_at(text, at + 2)?;
    if a < 0xF0 {
        return formed(at, 3, (a - 0xE0) * 4096 + b * 64 + c);
    }
    let d = tail_at(text, at + 3)?;
    formed(at, 4, (a - 0xF0) * 262144 + b * 4096 + c * 64 + d)
}

// Whether a byte is a continuation byte.
#[tactic(auto, using(crate::proofs::Tests::tests), unfolding(crate::specs::Short::is_tail))]
fn is_tail(b: u8) -> bool
    ensures { result ≡ is_tail b }
{
    matches!(b, 0x80..0xC0)
}

// Whether two bytes are a character.
#[tactic(auto, using(crate::proofs::Tests::tests), unfolding(crate::specs::Short::is_two))]
fn is_two(a: u8, b: u8) -> bool
    ensures { result ≡ is_two a b }
{
    matches!(a, 0xC2..0xE0) && is_tail(b)
}

// Whether two bytes are a character of the set, where the first byte tells it.
#[tactic(auto, using(crate::proofs::Tests::tests), unfolding(crate::specs::Short::plain_two))]
fn plain_two(a: u8, b: u8) -> bool
    ensures { result ≡ plain_two a b }
{
    matches!(a, 0xC2..0xCB | 0xCE..0xD2) && is_tail(b)
}

// The character at a place, if its bytes alone tell it: of two bytes that `two` takes, or of three that begin with E2 and lie in
// `three`. Three bytes are looked at, so that one test of the length is enough.
fn short_at<F: Fn(u8, u8) -> bool>(
    text: &[u8],
    at: usize,
    two: F,
    three: Range<u32>,
) -> Option<(u32, usize)>
    requires inside { at ≤ length text.now }
    requires callable { F.IsAlwaysCallable two }
    requires takes { (a b : _) → F.post two a b true → is_two a b ≡ true }
    requires from { 0x2000 ≤ three.start }
    requires below { three.end ≤ 0x3000 }
    ensures some { IfSome result (λ found. Short text.now at (F.post two) three.start three.end found.0 found.1) }
    ensures none_of_two { IfNone result (at + 3 ≤ length text.now
        → F.post two (get_or text.now at 0) (get_or text.now (at + 1) 0) false) }
    ensures none_of_three { IfNone result ((c : ℕ) → front (drop at text.now) ≡ one c → three.start ≤ c → three.end ≤ c) }
{
    let &[a, b, c, ..] = &text[at..] else {
        return None;
    };
    if two(a, b) {
        return Some((u32::from(a - 0xC0) * 64 + u32::from(b - 0x80), at + 2));
    }
    if a != 0xE2 || !is_tail(c) {
        return None;
    }
    let code = u32::from(b) * 64 + u32::from(c - 0x80);
    three.contains(&code).then_some((code, at + 3))
}

// The character at a place of a text; None where no character stands there: inside the text its bytes are none, and behind it
// nothing is left. Small, so that it is compiled into its callers: ASCII is decided here.
pub fn char_at(text: &[u8], at: usize) -> Option<(u32, usize)>
    ensures found { result ≡ decoded_at at (front (drop at text.now)) }
    ensures nothing { NoneMeans text.now at result }
{
    let a = *text.get(at)?;
    if a < 0x80 {
        return Some((u32::from(a), at + 1));
    }
    // Taken apart and put together again: the answer of ASCII then stays in registers.
    let (c, next) = long_at(text, at)?;
    Some((c, next))
}

// The character at a place of a text where characters above ASCII are as likely: those of two bytes and those that begin with E2
// are decided here too.
pub fn glyph_at(text: &[u8], at: usize) -> Option<(u32, usize)>
    ensures found { result ≡ decoded_at at (front (drop at text.now)) }
    ensures nothing { NoneMeans text.now at result }
{
    let a = *text.get(at)?;
    if a < 0x80 {
        return Some((u32::from(a), at + 1));
    }
    if let Some(found) = short_at(text, at, is_two, 0x2000..0x3000) {
        return Some(found);
    }
    long_at(text, at)
}

// The place behind the characters at a place that their first bytes tell, one behind the other: those of two bytes and those that
// begin with E2. None is decoded.
pub fn above_end(text: &[u8], at: usize) -> usize
    ensures { result ≡ at + sizes (take_while is_short (decode (drop at text.now))) }
{
    if text.len() < at {
        return at;
    }
    let mut i = at;
    while let Some((_, next)) = short_at(text, i, is_two, 0x2000..0x3000) {
        i = next;
    }
    // The loop wants three bytes: two that the text ends with are left.
    match &text[i..] {
        &[a, b] if is_two(a, b) => i + 2,
        _ => i,
    }
}

// The length of the longest UTF-8 beginning.
#[tactic(auto, using(crate::proofs::Scans::valid))]
pub fn valid_up_to(text: &[u8]) -> usize
    ensures { result ≡ valid_up_to text.now }
{
    let mut i = 0;
    while let Some((_, next)) = char_at(text, i) {
        i = next;
    }
    i
}

// Whether a code point is in the set that a text may use.
pub(crate) fn is_admitted(c: u32) -> bool
    ensures { result ≡ within admitted c }
{
    matches!(c, 0x0000..=0x02C1 | 0x0370..=0x0481 | LAST_FROM..=LAST_TO)
}

// The place of the first character outside that set, in the longest UTF-8 beginning.
#[tactic(auto, using(crate::proofs::Scans::outside))]
pub fn first_outside(text: &[u8]) -> Option<usize>
    ensures { result ≡ first_outside text.now }
{
    let mut i = 0;
    while let Some((c, next)) = char_at(text, i) {
        if !is_admitted(c) {
            return Some(i);
        }
        i = next;
    }
    None
}

// Eight bytes, or-ed together: below 80 where all are ASCII.
#[tactic(auto, unfolding(crate::specs::Blocks::ors))]
fn eight(block: &[u8; 8]) -> u8
    ensures { result ≡ ors block.now 0 }
{
    let x = block[0] | (block[1] | (block[2] | block[3]));
    x | (block[4] | (block[5] | (block[6] | block[7])))
}

// The place behind two bytes, if they are ASCII; else that of the first.
fn ascii_two(text: &[u8], at: usize) -> usize
    requires { at + 2 ≤ length text.now }
    ensures { Passes text.now at result }
{
    if (text[at] | text[at + 1]) < 0x80 {
        at + 2
    } else {
        at
    }
}

// A place before which all bytes are ASCII, from one on: blocks of eight are passed over; where the third byte says that there is
// none, two bytes.
fn ascii_blocks(text: &[u8], at: usize) -> usize
    requires { at ≤ length text.now }
    ensures { Passes text.now at result }
{
    if text.len() - at < 8 {
        return at;
    }
    if 0x80 <= text[at + 2] {
        return ascii_two(text, at);
    }
    let (blocks, _) = text[at..].as_chunks::<8>();
    let other = blocks.iter().position(|b| 0x80 <= eight(b));
    at + 8 * other.unwrap_or(blocks.len())
}

// How many ASCII bytes stand at a text's front.
fn ascii_len(text: &[u8]) -> usize
    ensures inside { result ≤ length text.now }
    ensures first { result ≡ unwrap_or (position (λ b. nat_le 0x80 b) text.now) (length text.now) }
{
    text.iter().position(|b| 0x80 <= *b).unwrap_or(text.len())
}

// The place of the first byte above ASCII from a place on, or the text's end: blocks first, then byte by byte.
fn ascii_end(text: &[u8], at: usize) -> usize
    requires { at ≤ length text.now }
    ensures { Passes text.now at result }
{
    let i = ascii_blocks(text, at);
    i + ascii_len(&text[i..])
}

// The place behind the ASCII bytes at a place: three where a character above ASCII follows, as between two quoted symbols; else
// as far as they go.
fn ascii_gap(text: &[u8], at: usize) -> usize
    requires inside { at < length text.now }
    requires ascii { get_or text.now at 0 < 0x80 }
    ensures more { at < result }
    ensures passes { Passes text.now at result }
{
    if 3 < text.len() - at && 0x80 <= text[at + 3] && (text[at + 1] | text[at + 2]) < 0x80 {
        return at + 3;
    }
    ascii_end(text, at + 1)
}

// The place behind the character of the set at a place, if the first bytes tell that one stands there.
fn plain_short(text: &[u8], at: usize) -> Option<usize>
    requires { at ≤ length text.now }
    ensures { IfSome result (λ next. Some next ≡ plain_next at (front (drop at text.now))) }
{
    let (_, next) = short_at(text, at, plain_two, LAST_FROM..LAST_TO + 1)?;
    Some(next)
}

// The place behind the character of the set at a place whose first byte is above ASCII, if one stands there: the first bytes tell
// it for nearly all.
#[tactic(auto, using(crate::proofs::Short::next_char, crate::proofs::Short::next_none))]
fn plain_next(text: &[u8], at: usize) -> Option<usize>
    requires inside { at < length text.now }
    requires above { 0x80 ≤ get_or text.now at 0 }
    ensures { result ≡ plain_next at (front (drop at text.now)) }
{
    if let Some(next) = plain_short(text, at) {
        return Some(next);
    }
    let (c, next) = long_at(text, at)?;
    is_admitted(c).then_some(next)
}

// The place behind the characters of the set at a place, as far as their first bytes tell them, one behind the other: in a text
// of glyphs most stand in such runs.
fn plain_run(text: &[u8], at: usize) -> usize
    requires { at ≤ length text.now }
    ensures { Passes text.now at result }
{
    let mut i = at;
    while let Some(next) = plain_short(text, i) {
        i = next;
    }
    i
}

// The place of the first character outside the set, or the end of the longest UTF-8 beginning where there is none.
pub fn plain_up_to(text: &[u8]) -> usize
    ensures { result ≡ plain_up_to text.now }
{
    // How far a turn goes depends on the bytes, so that no `for` counts it.
    let mut at = 0;
    while at < text.len() {
        if text[at] < 0x80 {
            at = ascii_gap(text, at);
        } else {
            let Some(next) = plain_next(text, at) else {
                return at;
            };
            at = plain_run(text, next);
        }
    }
    at
}

// The class of a code point.
pub fn class_of(c: u32) -> Class
    ensures { result ≡ class_of c }
{
    match c {
        0x41..=0x5A
        | 0x61..=0x7A
        | 0xAA
        | 0xB5
        | 0xBA
        | 0xC0..=0xD6
        | 0xD8..=0xF6
        | 0xF8..=0x2C1
        | 0x370..=0x374
        | 0x376..=0x377
        | 0x37A..=0x37D
        | 0x37F
        | 0x386
        | 0x388..=0x38A
        | 0x38C
        | 0x38E..=0x3A1
        | 0x3A3..=0x3F5
        | 0x3F7..=0x481 => Class::Letter,
        0x30..=0x39 => Class::Digit,
        0x09..=0x0D | 0x20 | 0x85 | 0xA0 => Class::Space,
        0x28..=0x2A | 0x2C | 0x3D | 0x7B | 0x7D => Class::Sign,
        _ => Class::Other,
    }
}
