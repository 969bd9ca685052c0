// The characters that a string of a text stands for, from the place between its quotes: counted, and put into cells. Nothing is
// presumed of the text or of the place: what is not there is empty, and so is what a closing quote behind it would not end.
#![tactic(auto)]

ghost use Rattle.std.specs.Prelude.{◌≡◌, [], ◌∷◌, ◌-◌, length, take, drop};
ghost use lib.Seq.{sets};
ghost use Rattle.chars.specs.Utf8.{decode};
ghost use Rattle.lexer.specs.Tokens.{escape, unescape};
ghost use Rattle.language.specs.Agreement.{string_at};
ghost use Rattle.runner_input.specs.Given.{ends, waits, given, CodesPut};

use machine::Span;

// The bytes at a place, as far as the text has them.
fn part(text: &[u8], place: Span) -> &[u8]
    ensures { result.now ≡ take (place.end - place.start) (drop place.start text.now) }
{
    let end = text.len().min(place.end as usize);
    let start = end.min(place.start as usize);
    &text[start..end]
}

// What a backslash makes of the character behind it; None where the two are no escape.
#[tactic(auto, using(crate::proofs::Given::escapes))]
fn escape(c: u32) -> Option<u32>
    ensures { result ≡ escape c }
{
    match c {
        0x22 => Some(0x22),
        0x5C => Some(0x5C),
        0x6E => Some(10),
        0x74 => Some(9),
        _ => None,
    }
}

// Whether a character is the quote that ends the string; `slash`: a backslash waits for it.
fn ends(slash: bool, c: u32) -> bool
    ensures { result ≡ ends slash c }
{
    !slash && c == 0x22
}

// Whether a character is a backslash that waits for the one behind it.
fn waits(slash: bool, c: u32) -> bool
    ensures { result ≡ waits slash c }
{
    !slash && c == 0x5C
}

// How many characters a character between the quotes gives.
#[tactic(auto, using(crate::proofs::Given::counted))]
fn count(slash: bool, c: u32) -> usize
    ensures { result ≡ length (given slash c) }
{
    if !slash {
        return (c != 0x5C) as usize;
    }
    match escape(c) {
        Some(_) => 1,
        None => 2,
    }
}

// How many characters the bytes between the quotes stand for.
fn value_length(part: &[u8]) -> usize
    ensures { result ≡ length (unescape (decode part.now)) }
{
    let mut total = 0;
    let mut i = 0;
    let mut slash = false;
    while let Some((c, next)) = chars::char_at(part, i) {
        if ends(slash, c) {
            return total;
        }
        if c == 10 {
            return 0;
        }
        total += count(slash, c);
        slash = waits(slash, c);
        i = next;
    }
    if slash { 0 } else { total }
}

// How many characters the string at a place has.
#[tactic(auto, using(crate::proofs::Counts::length_at))]
pub fn input_length(text: &[u8], place: Span) -> usize
    ensures { result ≡ length (string_at text.now place) }
{
    value_length(part(text, place))
}

// A code, where there is room.
#[tactic(auto, using(crate::proofs::Put::one))]
fn put_one(cells: &mut [u32], at: usize, c: u32) -> usize
    ensures { CodesPut (c ∷ []) cells.old at cells.new result }
{
    if cells.len() <= at {
        return at;
    }
    cells[at] = c;
    at + 1
}

// What a character between the quotes gives.
#[tactic(auto, using(crate::proofs::Put::given_put))]
fn put_given(cells: &mut [u32], at: usize, slash: bool, c: u32) -> usize
    ensures { CodesPut (given slash c) cells.old at cells.new result }
{
    if !slash {
        return if c == 0x5C { at } else { put_one(cells, at, c) };
    }
    match escape(c) {
        Some(v) => put_one(cells, at, v),
        None => {
            let behind = put_one(cells, at, 0x5C);
            put_one(cells, behind, c)
        }
    }
}

// What the bytes between the quotes stand for. It is known only at their end whether that is anything: so they are counted first.
fn put_value(part: &[u8], cells: &mut [u32], at: usize)
    ensures { cells.new ≡ sets cells.old at (unescape (decode part.now)) }
{
    if value_length(part) == 0 {
        return;
    }
    let mut to = at;
    let mut i = 0;
    let mut slash = false;
    while let Some((c, next)) = chars::char_at(part, i) {
        if ends(slash, c) {
            return;
        }
        to = put_given(cells, to, slash, c);
        slash = waits(slash, c);
        i = next;
    }
}

// The string at a place, its first character in the cell `at`. What lies past the last cell is left out.
#[tactic(auto, using(crate::proofs::Put::put_at))]
pub fn put_input(text: &[u8], place: Span, cells: &mut [u32], at: usize)
    ensures { cells.new ≡ sets cells.old at (string_at text.now place) }
{
    put_value(part(text, place), cells, at);
}
