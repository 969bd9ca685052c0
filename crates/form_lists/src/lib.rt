// What stands at the places and in the lists of an answer: names, strings, comments, symbols and moves (paper 01, "Plain form").
// Each function appends a piece of the form to a lent output, as crate `emit` does: stored where there is room, counted in any
// case.
// Text and output stay two parameters: of a struct with both, lent to be written, each contract would also say that its text
// stays. That a place holds UTF-8 is asked of each place: the `str` there would be checked again, and `string` takes a place of
// which more is known.
#![tactic(auto)]

ghost use Rattle.std.specs.Prelude.{true, ◌≡◌, map, ◌<◌, ◌≤◌};
ghost use Rattle.chars.specs.Decoded.{scalars};
ghost use Rattle.language.specs.Plain.{each, commas, verbatim, symbol, direction, string};
ghost use Rattle.language.specs.Plain.{comment_line, comment, own_comment, final_names};
ghost use Rattle.language.specs.Agreement.{groups, dir_of, characters_at, string_at, comment_at, state_in, text_in};
ghost use Rattle.sheet_view.specs.Directions.{dir_in};
ghost use Rattle.form_strings.specs.Writes.{Writes};
ghost use Rattle.form_strings.specs.Strings.{Whole};
ghost use Rattle.form_lists.specs.Places.{Every, bytes_at, Utf8At, NameIn, column};

use emit::Output;
use form_strings::{comma, string_text, symbol};
use machine::Span;
use sheet_layout::{ACTION_WORDS, MOVE, PLACE_WORDS};
use sheet_view::direction::{Direction, direction_of};
use sheet_view::state::state_at;
use sheet_view::{place_at, word};

// ---- parts of the text

// The bytes at a place.
fn part(text: &[u8], p: Span) -> &[u8]
    ensures { result.now ≡ bytes_at text.now p }
{
    let end = text.len().min(p.end as usize);
    let start = end.min(p.start as usize);
    &text[start..end]
}

// ---- characters

// The characters at a place.
#[tactic(auto, using(form_strings::proofs::Chain::chain))]
pub fn verbatim(out: &mut Output, text: &[u8], p: Span)
    requires { Utf8At text.now p }
    ensures { Writes (verbatim (characters_at text.now p)) out.old out.new }
{
    out.bytes(part(text, p));
}

// The string at a place, in quotes.
#[tactic(auto, using(form_strings::proofs::Chain::chain), unfolding(language::specs::Plain::string, language::specs::Agreement::string_at, language::specs::Agreement::characters_at))]
pub fn string(out: &mut Output, text: &[u8], p: Span)
    requires { Whole (characters_at text.now p) }
    ensures { Writes (string (string_at text.now p)) out.old out.new }
{
    out.bytes(b"\"");
    string_text(out, part(text, p));
    out.bytes(b"\"");
}

// ---- comments

// The comment at a place; a space parts the slashes from its text.
pub(crate) fn comment(out: &mut Output, text: &[u8], p: Span)
    requires { Utf8At text.now p }
    ensures { Writes (comment (characters_at text.now p)) out.old out.new }
{
    let t = part(text, p);
    if t.is_empty() {
        return out.bytes(b"//");
    }
    out.bytes(b"// ");
    out.bytes(t);
}

// A rule's own comment, if it has one.
#[tactic(auto, using(form_strings::proofs::Chain::chain), unfolding(language::specs::Agreement::comment_at))]
pub fn own_comment(out: &mut Output, text: &[u8], p: Span)
    requires { Utf8At text.now p }
    ensures { Writes (own_comment (comment_at text.now p)) out.old out.new }
{
    if p != Span::NONE {
        out.bytes(b" ");
        comment(out, text, p);
    }
}

// n comments, each on a line of its own.
pub fn comment_lines(out: &mut Output, text: &[u8], words: &[u32], n: u32)
    requires { Every (NameIn text.now) (groups 2 n words.now) }
    ensures { Writes (each comment_line (map (text_in text.now) (groups 2 n words.now))) out.old out.new }
{
    for i in 0..n as usize {
        comment(out, text, place_at(words, PLACE_WORDS * i));
        out.bytes(b"\n");
    }
}

// ---- lists

// A row may end before the records that it is said to hold, and what lies past its end is 0: so the loops count records, and cut
// no chunks.

// The names of n states.
pub fn names(out: &mut Output, text: &[u8], words: &[u32], n: u32)
    requires { Every (NameIn text.now) (groups 3 n words.now) }
    ensures { Writes (commas verbatim (map (text_in text.now) (groups 3 n words.now))) out.old out.new }
{
    for i in 0..n {
        comma(out, i as usize);
        verbatim(out, text, state_at(words, i).name);
    }
}

// The symbols in word o of n records of k words. A struct of words and n would be made for each call, of sections that have their
// own record length.
pub fn symbols(out: &mut Output, words: &[u32], k: usize, o: usize, n: u32)
    requires { (o < k)
        × (k ≤ 7)
        × (scalars (column k o n words.now) ≡ true) }
    ensures { Writes (commas symbol (column k o n words.now)) out.old out.new }
{
    for i in 0..n as usize {
        comma(out, i);
        symbol(out, word(words, k * i + o));
    }
}

// The move of a head.
fn direction(out: &mut Output, d: Direction)
    ensures { Writes (direction (dir_in d)) out.old out.new }
{
    out.byte(d.letter());
}

// The moves of n actions. One function for this and `symbols` would take what writes a word, its piece and what it asks: it is no
// shorter than both.
pub fn directions(out: &mut Output, words: &[u32], n: u32)
    ensures { Writes (commas direction (map dir_of (column 7 6 n words.now))) out.old out.new }
{
    for i in 0..n as usize {
        comma(out, i);
        direction(out, direction_of(word(words, ACTION_WORDS * i + MOVE)));
    }
}

// The names of the final ones of n states.
pub fn final_names(out: &mut Output, text: &[u8], words: &[u32], n: u32)
    requires { Every (NameIn text.now) (groups 3 n words.now) }
    ensures { Writes (commas verbatim (final_names (map (state_in text.now) (groups 3 n words.now)))) out.old out.new }
{
    let mut count = 0;
    for i in 0..n {
        let state = state_at(words, i);
        if state.is_final {
            comma(out, count);
            verbatim(out, text, state.name);
            count += 1;
        }
    }
}
