// Lines and strings, eight bytes at once: a beginning that needs no look at single characters is passed over.
ghost use Rattle.std.specs.Prelude.{◌≡◌, ℕ, true, false, ◌+◌, ◌<◌, ◌≤◌, length, get_or};
ghost use Rattle.chars.specs.Utf8.{sizes};
ghost use Rattle.lexer.specs.Tokens.{line, trim_end};
ghost use Rattle.lexer.specs.Places.{rest, trimmed_at, string_end};
ghost use Rattle.lexer.specs.Blocks.{plain_byte, inner_byte, LineBlock};

use crate::Line;

// Whether a byte is an ASCII character that is no control character.
#[tactic(auto, using(chars::proofs::Tests::tests), unfolding(crate::specs::Blocks::plain_byte))]
fn is_plain(b: u8) -> bool
    ensures { result ≡ plain_byte b }
{
    matches!(b, 0x20..0x80)
}

// Whether a byte is an ASCII character that stands for itself inside a string.
#[tactic(auto, using(chars::proofs::Tests::tests), unfolding(crate::specs::Blocks::plain_byte, crate::specs::Blocks::inner_byte))]
fn is_inner(b: u8) -> bool
    ensures { result ≡ inner_byte b }
{
    is_plain(b) & (b != b'"') & (b != b'\\')
}

// Whether all eight bytes of a block pass a test; no early exit, so that they are compared at once.
fn all_eight<F: Fn(u8) -> bool>(block: &[u8; 8], f: F) -> bool
    requires callable { F.IsAlwaysCallable f }
    ensures { result ≡ true → (j : ℕ) → j < 8 → F.post f (get_or block.now j 0) true }
{
    let mut all = true;
    for b in block {
        all &= f(*b);
    }
    all
}

// Whether all bytes of a block are plain, and its last two are no two spaces.
fn is_line(block: &[u8; 8]) -> bool
    ensures { result ≡ true → LineBlock block.now }
{
    all_eight(block, is_plain) && (block[7] != 0x20 || block[6] != 0x20)
}

// A place on the line, and where the line up to it ends without white space: blocks whose last
// bytes are no two spaces are passed over.
pub(crate) fn line_part(text: &[u8], at: usize) -> Line
    ensures end { result.end + sizes (line (rest text.now result.end)) ≡ at + sizes (line (rest text.now at)) }
    ensures trimmed { trimmed_at result.trimmed result.end (trim_end (line (rest text.now result.end)))
        ≡ at + sizes (trim_end (line (rest text.now at))) }
{
    if text.len() < at {
        return Line {
            trimmed: at,
            end: at,
        };
    }
    let (blocks, _) = text[at..].as_chunks::<8>();
    let other = blocks.iter().position(|b| !is_line(b));
    let end = at + 8 * other.unwrap_or(blocks.len());
    if at < end && text[end - 1] == 0x20 {
        return Line {
            trimmed: end - 1,
            end,
        };
    }
    Line { trimmed: end, end }
}

// A place inside a string, from behind its quote: blocks without a quote or a backslash are passed over.
pub(crate) fn string_part(text: &[u8], at: usize) -> usize
    ensures { string_end false result (rest text.now result) ≡ string_end false at (rest text.now at) }
{
    if text.len() < at {
        return at;
    }
    let (blocks, _) = text[at..].as_chunks::<8>();
    let other = blocks.iter().position(|b| !all_eight(b, is_inner));
    at + 8 * other.unwrap_or(blocks.len())
}
