// The smallest pieces of the plain form: characters, symbols, what parts the members of a list, and the text of a string.
// Each is appended to a lent output as crate `emit` does: stored where there is room, counted in any case.
// They are no methods, since `Output` is of another crate. A character is a word and no `char`: of what a contract says is a
// scalar value, `char::from_u32` would ask again.
#![tactic(auto)]

ghost use Rattle.std.specs.Prelude.{true, ◌&&◌, ◌≡◌, ◌∷◌, ltb};
ghost use Rattle.chars.specs.Utf8.{scalar, decode};
ghost use Rattle.lexer.specs.Tokens.{unescape};
ghost use Rattle.language.specs.Plain.{say, only, symbol, escaped, in_string, escaped_text};
ghost use Rattle.form_strings.specs.Writes.{Writes};
ghost use Rattle.form_strings.specs.Strings.{is_escape, rewritten, Whole};

use emit::Output;

// A character. Small, so that it is compiled into its callers: ASCII is decided here.
#[tactic(auto, using(crate::proofs::Chain::chain, crate::proofs::Chain::encode_next, crate::proofs::Characters::scalar_below))]
pub fn character(out: &mut Output, c: u32)
    requires { scalar c ≡ true }
    ensures { Writes (λ rest. c ∷ rest) out.old out.new }
{
    if c < 0x80 {
        return out.byte(c as u8);
    }
    out.code_point(c);
}

// A symbol, which is always quoted.
#[tactic(auto, using(crate::proofs::Chain::chain))]
pub fn symbol(out: &mut Output, c: u32)
    requires { scalar c ≡ true }
    ensures { Writes (symbol c) out.old out.new }
{
    out.bytes(b"'");
    character(out, c);
    out.bytes(b"'");
}

// A comma before every member of a list but the first.
#[tactic(auto, using(crate::proofs::Chain::chain))]
pub fn comma(out: &mut Output, i: usize)
    ensures { Writes (only (ltb 0 i) (say ", ")) out.old out.new }
{
    if 0 < i {
        out.bytes(b", ");
    }
}

// A character of a string, escaped where it has to be.
#[tactic(auto, using(crate::proofs::Chain::chain), unfolding(language::specs::Plain::in_string, language::specs::Plain::escaped))]
fn in_string(out: &mut Output, c: u32)
    requires { scalar c ≡ true }
    ensures { Writes (in_string (escaped c) c) out.old out.new }
{
    match c {
        0x22 => out.bytes(b"\\\""),
        0x5C => out.bytes(b"\\\\"),
        10 => out.bytes(b"\\n"),
        9 => out.bytes(b"\\t"),
        _ => character(out, c),
    }
}

// Whether a character makes an escape with a backslash before it.
#[tactic(auto, unfolding(crate::specs::Strings::is_escape))]
fn is_escape(c: u32) -> bool
    ensures { result ≡ is_escape c }
{
    matches!(c, 0x22 | 0x5C | 0x6E | 0x74)
}

// A character behind a backslash: an escape is written as it stands, else the backslash is a character of its own.
#[tactic(auto, using(crate::proofs::Chain::chain, crate::proofs::Strings::slashes))]
fn behind_slash(out: &mut Output, c: u32)
    requires { scalar c ≡ true }
    ensures { Writes (rewritten true c) out.old out.new }
{
    out.bytes(b"\\");
    if is_escape(c) {
        return out.byte(c as u8);
    }
    out.bytes(b"\\");
    in_string(out, c);
}

// A character between the quotes as it is written again. A backslash waits for the character behind it.
#[tactic(auto, using(crate::proofs::Chain::chain), unfolding(crate::specs::Strings::rewritten))]
fn rewritten(out: &mut Output, slash: bool, c: u32)
    requires { scalar c ≡ true }
    ensures { Writes (rewritten slash c) out.old out.new }
{
    if slash {
        return behind_slash(out, c);
    }
    if c != 0x5C {
        in_string(out, c);
    }
}

// The bytes between the quotes: their escapes are undone and made again.
pub fn string_text(out: &mut Output, part: &[u8])
    requires { Whole (decode part.now) }
    ensures { Writes (escaped_text (unescape (decode part.now))) out.old out.new }
{
    let mut i = 0;
    let mut slash = false;
    while let Some((c, next)) = chars::char_at(part, i) {
        rewritten(out, slash, c);
        slash = !slash && c == 0x5C;
        i = next;
    }
}
