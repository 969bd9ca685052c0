// Tokens of one ASCII character, told by a table and the byte behind them.
ghost use Rattle.std.specs.Prelude.{◌≡◌, ◌<◌, IsTrue, IfSome, true};
ghost use Rattle.lexer.specs.Quick.{untold, long_word, lead_of, AsciiAt, EndsAt, WordAt, QuickAt, quick_value};

use crate::kind;

// What `lead_at` answers beside the kinds: white space, which the table has too; where the table
// does not tell; and a word that may go on.
// What `lead_at` answers stays a number: an enum of these, in three forms, took up to 8 in a hundred more instructions
// where a text is signs or quoted symbols.
pub(crate) const BLANK: u32 = 16;

const UNTOLD: u32 = 17;

pub(crate) const LONG_WORD: u32 = 18;

// What each ASCII character begins: a word 0, a number 1, a quoted character 2, a sign its kind, a line feed 13,
// white space 16, a string or a comment 17.
const LEADS: &[u8; 128] =
    b"\x0B\x0B\x0B\x0B\x0B\x0B\x0B\x0B\x0B\x10\x0D\x10\x10\x10\x0B\x0B\x0B\x0B\x0B\x0B\x0B\x0B\x0B\x0B\x0B\x0B\x0B\x0B\x0B\x0B\x0B\x0B\x10\x0B\x11\x0B\x0B\x0B\x0B\x02\x04\x05\x0A\x0B\x08\x0B\x0B\x11\x01\x01\x01\x01\x01\x01\x01\x01\x01\x01\x0B\x0B\x0B\x09\x0B\x0B\x0B\x00\x00\x00\x00\x00\x00\x00\x00\x00\x00\x00\x00\x00\x00\x00\x00\x00\x00\x00\x00\x00\x00\x00\x00\x00\x00\x0B\x0B\x0B\x0B\x00\x0B\x00\x00\x00\x00\x00\x00\x00\x00\x00\x00\x00\x00\x00\x00\x00\x00\x00\x00\x00\x00\x00\x00\x00\x00\x00\x00\x06\x0B\x07\x0B\x0B";

// What an ASCII character begins, by the table; one computed test says here that the table is that of the classes.
pub(crate) fn lead_of(c: u32) -> u32
    requires { c < 0x80 }
    ensures { result ≡ lead_of c }
{
    u32::from(LEADS[c as usize])
}

// What the ASCII character at a place begins; none where another stands there, or the text ends.
fn ascii_lead(text: &[u8], at: usize) -> Option<u32>
    ensures { IfSome result (AsciiAt text.now at) }
{
    match text.get(at) {
        Some(&b) if b < 0x80 => Some(lead_of(u32::from(b))),
        _ => None,
    }
}

// Whether the end stands at a place, or an ASCII character with whose lead a token ends.
fn ends_at<F: FnOnce(u32) -> bool>(text: &[u8], at: usize, ends: F) -> bool
    requires callable { F.IsAlwaysCallable ends }
    ensures { IsTrue result → EndsAt (λ lead. F.post ends lead true) text.now at }
{
    text.len() <= at || ascii_lead(text, at).is_some_and(ends)
}

// What stands at a place: the kind of a token of one ASCII character, or BLANK, UNTOLD or LONG_WORD.
pub(crate) fn lead_at(text: &[u8], at: usize) -> u32
    ensures quick { result < untold → QuickAt text.now at result }
    ensures word { result ≡ long_word → WordAt text.now at }
{
    let Some(lead) = ascii_lead(text, at) else {
        return UNTOLD;
    };
    // Signs, line feeds and white space first: no look at the byte behind tells them.
    if kind::QUOTED < lead {
        return lead;
    }
    match lead {
        kind::WORD if !ends_at(text, at + 1, |next| kind::QUOTED < next) => LONG_WORD,
        kind::NUMBER if !ends_at(text, at + 1, |next| next != kind::NUMBER) => UNTOLD,
        kind::QUOTED => UNTOLD,
        _ => lead,
    }
}

// The value of a token that is one ASCII character, from what that begins.
#[tactic(auto, using(crate::proofs::Leads::quick_values))]
pub(crate) fn value_of(k: u32, b: u8) -> u32
    ensures { result ≡ quick_value k b }
{
    match k {
        kind::NUMBER => u32::from(b % 16),
        kind::NEWLINE => 0,
        _ => u32::from(b),
    }
}
