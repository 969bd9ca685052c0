// The characters of the input's value.
// A text and a place, a character and whether a backslash stands before it: two values each, as
// `chars::glyph_at` and the definitions take them.
ghost use Rattle.std.specs.Prelude.{◌≡◌, ◌≤◌, ◌+◌, false, None, IfSome, ◌∷◌, []};
ghost use Rattle.lexer.specs.Places.{rest};
ghost use Rattle.tokens.specs.Listed.{tokens_of};
ghost use Rattle.infer_symbols.specs.Codes.{noted_all};
ghost use Rattle.infer_symbols.specs.Notes.{listed, Sound, Notes};
ghost use Rattle.infer_symbols.specs.Input.{ends_at, escape_of, spelled_as, escapes_next, spelled, input_of};

use crate::codes::Codes;
use tokens::Tokens;

// Whether a string ends at c.
#[tactic(auto, unfolding(crate::specs::Input::ends_at))]
fn ends_at(escaped: bool, c: u32) -> bool
    ensures { result ≡ ends_at escaped c }
{
    c == 10 || !escaped && c == 0x22
}

// Whether the next character is read with the backslash c.
#[tactic(auto, unfolding(crate::specs::Input::escapes_next))]
fn escapes_next(escaped: bool, c: u32) -> bool
    ensures { result ≡ escapes_next escaped c }
{
    !escaped && c == 0x5C
}

// What a backslash and c stand for, if they do.
#[tactic(auto, unfolding(crate::specs::Input::escape_of))]
fn escape_code(c: u32) -> Option<u32>
    ensures some { IfSome result (λ v. escape_of c ≡ v ∷ []) }
    ensures none { result ≡ None → escape_of c ≡ 0x5C ∷ c ∷ [] }
{
    match c {
        0x22 | 0x5C => Some(c),
        0x6E => Some(10),
        0x74 => Some(9),
        _ => None,
    }
}

// Notes what one character adds to the value.
fn note_char(escaped: bool, c: u32, codes: &mut Codes)
    ensures { Notes (spelled_as escaped c) codes.old codes.new }
{
    if !escaped {
        if c != 0x5C {
            codes.note(c);
        }
        return;
    }
    if let Some(v) = escape_code(c) {
        codes.note(v);
    } else {
        codes.note(0x5C);
        codes.note(c);
    }
}

// The place behind the characters above ASCII at a place that are noted already: they add nothing.
fn seen_end(text: &[u8], at: usize, codes: &Codes) -> usize
    ensures on { at ≤ result }
    ensures same { Sound codes.now → noted_all (listed codes.now) (spelled false (rest text.now result))
        ≡ noted_all (listed codes.now) (spelled false (rest text.now at)) }
{
    let mut i = at;
    while let Some((c, next)) = chars::glyph_at(text, i) {
        if c < 0x80 || !codes.is_seen(c) {
            return i;
        }
        i = next;
    }
    i
}

// From where on a string's text may add something.
fn unseen_from(text: &[u8], at: usize, escaped: bool, codes: &Codes) -> usize
    ensures on { at ≤ result }
    ensures same { Sound codes.now → noted_all (listed codes.now) (spelled escaped (rest text.now result))
        ≡ noted_all (listed codes.now) (spelled escaped (rest text.now at)) }
{
    if escaped {
        return at;
    }
    seen_end(text, at, codes)
}

// Notes the characters of the string whose text begins at a place. Where the next is looked for depends
// on what is noted: no iterator gives them.
fn note_string(text: &[u8], at: usize, codes: &mut Codes)
    ensures { Notes (spelled false (rest text.now at)) codes.old codes.new }
{
    let mut i = at;
    let mut escaped = false;
    loop {
        let j = unseen_from(text, i, escaped, codes);
        let Some((c, next)) = chars::glyph_at(text, j) else {
            return;
        };
        if ends_at(escaped, c) {
            return;
        }
        note_char(escaped, c, codes);
        escaped = escapes_next(escaped, c);
        i = next;
    }
}

// Notes the characters of the input, which the line at the index d declares; none if no token
// stands there, since this asks nothing of d.
pub(crate) fn note_input(text: &[u8], tokens: &Tokens, d: usize, codes: &mut Codes)
    ensures { Notes (input_of text.now (tokens_of tokens.now) d) codes.old codes.new }
{
    if d < tokens.len() {
        let t = tokens.at(d + 1);
        note_string(text, t.start as usize + t.value as usize, codes);
    }
}
