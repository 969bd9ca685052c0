// Tokens of texts at which a lexer may go wrong, word by word: kind, start, end and value of each.
#![tactic(auto)]

ghost use Rattle.std.specs.Prelude.{◌≡◌, ◌≤◌, ◌↔◌, IsTrue, length};
ghost use Rattle.chars.specs.Utf8.{decode};
ghost use Rattle.lexer.specs.Tokens.{tokens};
ghost use Rattle.lexer.specs.Words.{flat};

// Whether the words of a text's tokens are those given.
fn tokens_are(text: &[u8], want: &[u32]) -> bool
    requires { length text.now ≤ 80 }
    ensures { IsTrue result ↔ (flat (tokens (decode text.now)) ≡ want.now) }
{
    let mut work = [7; 486];
    let n = lexer::tokenize(text, &mut work);
    &work[..4 * n] == want
}

#[tactic(auto, unfolding(chars::specs::Utf8::decode, lexer::specs::Tokens::tokens, lexer::specs::Words::flat))]
fn main() {
    // a quote continues a word
    check::expect(tokens_are(b"a'b'", &[0, 0, 4, 0x110000, 13, 4, 4, 0]));
    // a quoted quote
    check::expect(tokens_are(b"'''", &[2, 0, 3, 0x27, 13, 3, 3, 0]));
    // a quote set against a word belongs to the word, one set before it does not
    check::expect(tokens_are(b"a'x", &[0, 0, 3, 0x110000, 13, 3, 3, 0]));
    check::expect(tokens_are(b"'x'a", &[2, 0, 3, 0x78, 0, 3, 4, 0x61, 13, 4, 4, 0]));
    // an unterminated string goes to the end of its line, trimmed
    check::expect(tokens_are(b"\"a\\\" \n", &[14, 0, 4, 0, 13, 5, 6, 0, 13, 6, 6, 0]));
    // a lone quote
    check::expect(tokens_are(
        b"'\n'",
        &[15, 0, 1, 0, 13, 1, 2, 0, 15, 2, 3, 0, 13, 3, 3, 0],
    ));
    // a carriage return is white space
    check::expect(tokens_are(b"Q\r\n", &[0, 0, 1, 0x51, 13, 2, 3, 0, 13, 3, 3, 0]));
    // U+0085 parts words
    check::expect(tokens_are(b"a\xC2\x85b", &[0, 0, 1, 0x61, 0, 3, 4, 0x62, 13, 4, 4, 0]));
    // one space behind the slashes is no part of a comment's text, the end is trimmed
    check::expect(tokens_are(
        b"//  c \n//",
        &[12, 0, 5, 3, 13, 6, 7, 0, 12, 7, 9, 2, 13, 9, 9, 0],
    ));
    // values stop at 256
    check::expect(tokens_are(b"255 0256", &[1, 0, 3, 255, 1, 4, 8, 256, 13, 8, 8, 0]));
}
