// Tokens of the description language (the source's dsl/lexer.rs), as words in a lent row.
// A text and a place in it are two parameters and no cursor: a scan answers a place alone, and with a cursor each
// contract would say too that the text is kept.
#![tactic(auto)]

ghost use Rattle.std.specs.Prelude.{◌≡◌, ◌+◌, ◌*◌, ◌<◌, ◌≤◌, [], ◌∷◌, length};
ghost use Rattle.std.proofs.lemmas.List.Edits.{sets};
ghost use Rattle.chars.specs.Utf8.{decode};
ghost use Rattle.lexer.specs.Tokens.{tokens};
ghost use Rattle.lexer.specs.Words.{flat, onto, max_bytes, tokenized};
ghost use Rattle.lexer.specs.Kinds.{kind_word, found};
ghost use Rattle.lexer.specs.Places.{Tok};
ghost use Rattle.lexer.specs.Quick.{WordAt, comma_words, WordPut};

mod block;
pub mod keyword;
pub mod kind;
mod lex;
pub mod names;
mod quick;
mod scan;

use crate::kind::TokenKind;
pub use diag::Span;

// The longest text that is read, in bytes.
pub const MAX_BYTES: usize = 4_194_304;

// How many words of work each byte of a text needs; the text's end needs as many.
pub const WORK_WORDS: usize = 6;

// How many words a token is: its kind, start, end and value.
pub const TOKEN_WORDS: usize = 4;

// The most tapes that a machine may have. Numbers stand for tapes alone, so that the value of none is kept beyond one more.
pub const MAX_TAPES: u32 = 255;

// What stands at a place of the text.
#[derive(Clone, Copy)]
pub enum Piece {
    // A token: its kind, where it ends, its value, and the place to go on from.
    Token {
        kind: TokenKind,
        end: usize,
        value: u32,
        next: usize,
    },
    // White space, and the place behind it.
    Gap(usize),
    // No character.
    End,
}

impl Piece {
    // A token behind which the text goes on.
    fn token(kind: TokenKind, end: usize, value: u32) -> Self
        ensures { found result ≡ Tok (kind_word kind) end value end }
    {
        Self::Token {
            kind,
            end,
            value,
            next: end,
        }
    }
}

// The rest of a line: its end, and its end without the white space before it.
#[derive(Clone, Copy)]
pub struct Line {
    pub trimmed: usize,
    pub end: usize,
}

impl Line {
    // A token up to the line's end, trimmed.
    fn token(&self, kind: TokenKind, value: u32) -> Piece
        ensures { found result ≡ Tok (kind_word kind) self.now.trimmed value self.now.end }
    {
        Piece::Token {
            kind,
            end: self.trimmed,
            value,
            next: self.end,
        }
    }
}

// Where the text goes on, and how many tokens there are.
#[derive(Clone, Copy)]
pub struct Cursor {
    pub at: usize,
    pub n: usize,
}

// Token number n, as four words of work. Each word is written by itself: `copy_from_slice` of the four
// takes twelve instructions more for a token.
// Work and the number of tokens are no struct: this asks for room for one token, `word` and `fill` for all of a text's.
fn push(work: &mut [u32], n: usize, kind: u32, start: u32, end: u32, value: u32)
    requires { 4 * n + 4 ≤ length work.old }
    ensures { work.new ≡ sets work.old (4 * n) (kind ∷ start ∷ end ∷ value ∷ []) }
{
    let o = TOKEN_WORDS * n;
    work[o] = kind;
    work[o + 1] = start;
    work[o + 2] = end;
    work[o + 3] = value;
}

// The comma at a place, if one stands there, as token number n; answers how many tokens that is.
fn comma(text: &[u8], at: usize, work: &mut [u32], n: usize) -> usize
    requires { (length text.now ≤ max_bytes)
        × (at < length text.now → 4 * n + 4 ≤ length work.old) }
    ensures { (result ≤ 1)
        × (4 * result ≡ length (comma_words text.now at))
        × (work.new ≡ sets work.old (4 * n) (comma_words text.now at)) }
{
    if text.len() <= at || text[at] != b',' {
        return 0;
    }
    push(work, n, kind::COMMA, at as u32, (at + 1) as u32, 0x2C);
    1
}

// The word at a place that begins with an ASCII character, as token number n, together with a comma behind it.
#[tactic(auto, using(crate::proofs::Commas::fits))]
fn word(text: &[u8], at: usize, work: &mut [u32], n: usize) -> Cursor
    requires { (length text.now ≤ max_bytes)
        × (4 * length text.now + 4 ≤ length work.old)
        × (n ≤ at)
        × WordAt text.now at }
    ensures { WordPut text.now at n work.old work.new result.at result.n }
{
    let end = scan::word_end(text, at + 1);
    let v = lex::word_value(text, at, end);
    push(work, n, kind::WORD, at as u32, end as u32, v);
    let m = comma(text, end, work, n + 1);
    Cursor {
        at: end + m,
        n: n + 1 + m,
    }
}

// The tokens of a text, at the front of work; answers their number. The rest of work stays as it was.
// Tokens of one ASCII character go by the table, longer words that begin with one by their end, any other by what stands at the
// place. Those of more characters than one go together with a comma behind them.
// Not compiled into its callers: inside the reader, white space, line feeds and short words took up to twice as long.
#[inline(never)]
pub fn tokenize(text: &[u8], work: &mut [u32]) -> usize
    requires { (length text.now ≤ max_bytes)
        × (4 * length text.now + 4 ≤ length work.old) }
    ensures { (result ≡ length (tokens (decode text.now)))
        × (work.new ≡ onto (flat (tokens (decode text.now))) work.old) }
{
    let (mut at, mut n) = (0, 0);
    // How far a turn goes depends on what stands there, so that no `for` counts it.
    loop {
        let k = quick::lead_at(text, at);
        if k < quick::BLANK {
            let v = quick::value_of(k, text[at]);
            push(work, n, k, at as u32, (at + 1) as u32, v);
            n += 1;
            at += 1;
        } else if k == quick::BLANK {
            at += 1;
        } else if k == quick::LONG_WORD {
            Cursor { at, n } = word(text, at, work, n);
        } else {
            match lex::piece_at(text, at) {
                Piece::Token {
                    kind,
                    end,
                    value,
                    next,
                } => {
                    push(work, n, kind as u32, at as u32, end as u32, value);
                    let m = comma(text, next, work, n + 1);
                    n = n + 1 + m;
                    at = next + m;
                }
                Piece::Gap(next) => at = next,
                Piece::End => {
                    push(work, n, kind::NEWLINE, at as u32, at as u32, 0);
                    return n + 1;
                }
            }
        }
    }
}

// `tokenize` for callers in other languages. Where the text is too long or work too short, work is
// left as it is, and the answer is all ones.
#[unsafe(no_mangle)]
#[tactic(auto, using(crate::proofs::Writes::refused_long, crate::proofs::Writes::refused_short, crate::proofs::Writes::answered))]
pub extern "C" fn pevzoncs_tokenize(text: &[u8], work: &mut [u32]) -> usize
    ensures { (result, work.new) ≡ tokenized text.now work.old }
{
    if MAX_BYTES < text.len() {
        return usize::MAX;
    }
    if work.len() < WORK_WORDS * text.len() + WORK_WORDS {
        return usize::MAX;
    }
    tokenize(text, work)
}
