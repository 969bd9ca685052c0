// Parts of the text: names, and their numbers among the keywords.
ghost use Rattle.std.specs.Prelude.{◌≡◌, ◌+◌};
ghost use Rattle.lexer.specs.Words.{position};
ghost use Rattle.lexer.specs.Keywords.{keyword_bytes, keywords_of, number_in};
ghost use Rattle.lexer.specs.Places.{part, part_start};

use crate::keyword::Keyword;

// The part of the text between two offsets, where it stands in the text; the text's empty front where they do not lie inside it.
pub fn part_of(text: &[u8], start: usize, end: usize) -> &[u8]
    ensures bytes { result.now ≡ part text.now start end }
    ensures place { (result.ref_ptr.0 ≡ text.entry.ref_ptr.0)
        × (result.ref_ptr.1 ≡ text.entry.ref_ptr.1 + part_start text.now start end) }
{
    // Not `get`, whose contract does not say where the part stands.
    if start <= end && end <= text.len() {
        &text[start..end]
    } else {
        &text[..0]
    }
}

// The number that a table of keywords of N bytes gives a name; 0 if it is none of them.
fn number_among<const N: usize>(keywords: &[(u32, [u8; N])], name: &[u8]) -> u32
    ensures { result ≡ number_in keywords.now name.now }
{
    for (number, keyword) in keywords {
        // Most names differ in the first byte; `==` looks at all, and takes a quarter longer on words of five bytes.
        if keyword.iter().eq(name) {
            return *number;
        }
    }
    0
}

// The keywords of each length in bytes, with their numbers.
const OF_ONE: [(u32, [u8; 1]); 2] = [(Keyword::Q as u32, *b"Q"), (Keyword::F as u32, *b"F")];

const OF_TWO: [(u32, [u8; 2]); 3] = [
    (Keyword::SigmaSign as u32, *b"\xCE\xA3"),
    (Keyword::GammaSign as u32, *b"\xCE\x93"),
    (Keyword::DeltaSign as u32, *b"\xCE\xB4"),
];

const OF_THREE: [(u32, [u8; 3]); 2] = [
    (Keyword::Lsb as u32, *b"lsb"),
    (Keyword::Msb as u32, *b"msb"),
];

const OF_FOUR: [(u32, [u8; 4]); 2] = [
    (Keyword::Kind as u32, *b"kind"),
    (Keyword::Word as u32, *b"word"),
];

const OF_FIVE: [(u32, [u8; 5]); 8] = [
    (Keyword::Input as u32, *b"input"),
    (Keyword::Tapes as u32, *b"tapes"),
    (Keyword::Sigma as u32, *b"Sigma"),
    (Keyword::Gamma as u32, *b"Gamma"),
    (Keyword::Blank as u32, *b"blank"),
    (Keyword::Start as u32, *b"start"),
    (Keyword::Delta as u32, *b"delta"),
    (Keyword::Unary as u32, *b"unary"),
];

const OF_SIX: [(u32, [u8; 6]); 3] = [
    (Keyword::Output as u32, *b"output"),
    (Keyword::Beaver as u32, *b"beaver"),
    (Keyword::Binary as u32, *b"binary"),
];

const OF_SEVEN: [(u32, [u8; 7]); 1] = [(Keyword::Machine as u32, *b"machine")];

const OF_EIGHT: [(u32, [u8; 8]); 1] = [(Keyword::Acceptor as u32, *b"acceptor")];

const OF_TEN: [(u32, [u8; 10]); 2] = [
    (Keyword::Transducer as u32, *b"transducer"),
    (Keyword::Enumerator as u32, *b"enumerator"),
];

// A word's number among the keywords, or 0: only those of its length are compared. It is no enum, since it goes into
// the value of a token, a word that C lends.
pub(crate) fn keyword_of(name: &[u8]) -> u32
    ensures { result ≡ position 1 keyword_bytes name.now }
{
    match name.len() {
        1 => number_among(&OF_ONE, name),
        2 => number_among(&OF_TWO, name),
        3 => number_among(&OF_THREE, name),
        4 => number_among(&OF_FOUR, name),
        5 => number_among(&OF_FIVE, name),
        6 => number_among(&OF_SIX, name),
        7 => number_among(&OF_SEVEN, name),
        8 => number_among(&OF_EIGHT, name),
        10 => number_among(&OF_TEN, name),
        _ => 0,
    }
}
