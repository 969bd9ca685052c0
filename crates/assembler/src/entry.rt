// The entries of lines: what a line holds stands in its first token.
ghost use Rattle.std.specs.Prelude.{◌≡◌, ◌+◌, ◌<◌, ◌^◌};
ghost use Rattle.assembler.specs.Entries.{behind};

use lexer::kind;
use parser::ItemKind;
use tokens::Token;

// The kind of an item's entry: this and its number. ITEM and FAILED are bases of numbers, and no enum, since
// entries stand in a row of words that C lends.
pub const ITEM: u32 = 16;

// The kind of a failed line's entry: this and its code.
pub const FAILED: u32 = 32;

// The kind of a rule's entry.
pub const RULE: u32 = ITEM + ItemKind::Transition as u32;

// How far behind its entry a value stands whose keyword is followed by it.
pub const BARE_VALUE: usize = 1;

// How far behind its entry a value stands whose keyword is followed by `=`.
pub const VALUE: usize = 2;

// How far behind a rule's entry its `(` stands, which holds how many entries it reads and writes, and how many moves it has.
pub const COUNTS: usize = 1;

// How far behind a rule's entry the state stands in which it applies.
pub const FROM: usize = 2;

// How far behind a rule's entry the comma stands that holds the indices of its next state, of what it writes and of its moves.
pub const PARTS: usize = 3;

// How far behind a rule's entry begins what it reads.
pub const READ: usize = 4;

// The index behind the line that begins with the token t at an index.
pub fn next_line(t: Token, at: usize) -> usize
    requires { at + 2 < 2 ^ 64 }
    ensures { result ≡ at + 1 + behind at t }
{
    if ITEM <= t.kind {
        return at.max(t.value as usize) + 1;
    }
    if t.kind == kind::COMMENT {
        // Behind the comment and its line feed.
        return at + 2;
    }
    at + 1
}
