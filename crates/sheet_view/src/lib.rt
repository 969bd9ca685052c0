// The sheet as a caller has it: its sections, its states and its rules, so that no caller counts words. Below them stand a word,
// a place, the words behind some, and a record: what lies past the end is 0 or empty, so forged words have an answer too.
// A struct around such a row would hold the row alone; as functions these take any part of it as it is.
#![tactic(auto)]

ghost use Rattle.std.specs.Prelude.{◌≡◌, ◌<◌, get_or, take, drop};
ghost use Rattle.language.specs.Agreement.{place_at};

pub mod direction;
pub mod rule;
pub mod sections;
pub mod state;

use machine::Span;

// The word at an index, 0 past the end.
pub fn word(words: &[u32], i: usize) -> u32
    ensures { result ≡ get_or words.now i 0 }
{
    words.get(i).copied().unwrap_or(0)
}

// The place that stands in two words.
pub fn place_at(words: &[u32], i: usize) -> Span
    requires { i < usize.MAX }
    ensures { result ≡ place_at words.now i }
{
    Span {
        start: word(words, i),
        end: word(words, i + 1),
    }
}

// The words behind the first n, which may be more than there are.
pub fn after(words: &[u32], n: usize) -> &[u32]
    ensures { result.now ≡ drop n words.now }
{
    words.get(n..).unwrap_or(&[])
}

// The record that begins at an index with its length.
pub fn record_at(words: &[u32], i: usize) -> &[u32]
    ensures { result.now ≡ take (get_or words.now i 0) (drop i words.now) }
{
    let length = word(words, i) as usize;
    let rest = after(words, i);
    &rest[..length.min(rest.len())]
}
