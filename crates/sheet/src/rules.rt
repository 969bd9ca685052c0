// Rules: the words of each.
ghost use Rattle.std.specs.Prelude.{◌≡◌, ◌+◌, ◌*◌, ◌^◌, ◌<◌, ◌≤◌, map, length};
ghost use Rattle.tokens.specs.Listed.{tokens_of};
ghost use Rattle.parser.specs.Row.{peek};
ghost use Rattle.assembler.specs.Rows.{rows};
ghost use Rattle.sheet.specs.Puts.{Puts};
ghost use Rattle.sheet.specs.Comments.{between};
ghost use Rattle.sheet.specs.Rules.{resolve, written, move_of, first_entry, rule_at, own_place};
ghost use Rattle.sheet.specs.Rules.{tape_words, tapes_words, head_words, rule_words, Placed};

use crate::comments;
use crate::put::Sheet;
use assembler::entry;
use diag::Span;
use lexer::kind;
use sheet_layout::{ACTION_WORDS, ACTIONS, PLACE_WORDS};
use tokens::{Token, Tokens};

// The blank unless another is declared; alone and not quoted it stands for the blank that is declared.
pub const BLANK: u32 = '␣' as u32;

// The word that stands for the blank.
const BLANK_WORD: u32 = '_' as u32;

// The direction that is 0 on the sheet.
const LEFT: u32 = 'L' as u32;

// The direction that is 1 on the sheet; the third one is 2.
const RIGHT: u32 = 'R' as u32;

// The character of a symbol.
#[tactic(auto, unfolding(crate::specs::Rules::resolve))]
pub fn resolve(blank: u32, t: Token) -> u32
    ensures { result ≡ resolve blank t }
{
    match (t.kind, t.value) {
        (kind::WORD, BLANK_WORD) | (kind::OTHER, BLANK) => blank,
        (kind::NUMBER, digit) => digit.wrapping_add(0x30),
        (_, c) => c,
    }
}

// What is written where r is read.
#[tactic(auto, unfolding(crate::specs::Rules::written))]
fn written(blank: u32, r: Token, w: Token) -> u32
    ensures { result ≡ written blank r w }
{
    resolve(blank, if w.kind == kind::STAR { r } else { w })
}

// The number of a direction. It is no enum, since it goes into a word of the sheet, which C reads.
#[tactic(auto, unfolding(crate::specs::Rules::move_of))]
fn move_of(t: Token) -> u32
    ensures { result ≡ move_of t }
{
    match t.value {
        LEFT => 0,
        RIGHT => 1,
        _ => 2,
    }
}

// Where a list of entries, or the one entry, begins.
#[tactic(auto, unfolding(crate::specs::Rules::first_entry))]
pub(crate) fn first_entry(tokens: &Tokens, at: usize) -> usize
    requires { at + 1 < 2 ^ 64 }
    ensures { result ≡ first_entry (tokens_of tokens.now) at }
{
    if tokens.at(at).kind == kind::L_PAREN {
        return at + 1;
    }
    at
}

// A rule's own comment, or none.
#[tactic(auto, unfolding(crate::specs::Rules::own_place))]
pub(crate) fn own_place(tokens: &Tokens, line: usize) -> Span
    ensures { result ≡ own_place (tokens_of tokens.now) line }
{
    let end = tokens.at(line).value as usize;
    if end == 0 {
        return Span::NONE;
    }
    let c = tokens.at(end - 1);
    if c.kind == kind::COMMENT {
        return comments::text_of(c);
    }
    Span::NONE
}

// One tape: r is read, w written, d the move.
fn tape(sheet: &mut Sheet, blank: u32, r: Token, w: Token, d: Token)
    ensures { Puts (tape_words blank r w d) sheet.old sheet.new }
{
    let x = resolve(blank, r);
    let y = written(blank, r, w);
    sheet.words(&[x, r.start, r.end, y, w.start, w.end, move_of(d)]);
}

// Where the parts of a rule stand: its line's first token, the next state, the first write,
// the first move; and how many tapes it has.
#[derive(Clone, Copy, Debug, PartialEq, Eq)]
pub struct Rule {
    pub line: usize,
    pub to: usize,
    pub write: usize,
    pub dir: usize,
    pub tapes: usize,
}

impl Rule {
    // The parts of the rule at a line.
    pub(crate) fn at(tokens: &Tokens, line: usize, tapes: usize) -> Self
        requires { line < tokens.now.count }
        ensures parts { result ≡ rule_at (tokens_of tokens.now) line tapes }
        ensures small { (result.write ≤ 2 ^ 32)
            × (result.dir ≤ 2 ^ 32) }
    {
        let q = tokens.at(line + entry::PARTS);
        Self {
            line,
            to: q.start as usize,
            write: first_entry(tokens, q.end as usize),
            dir: first_entry(tokens, q.value as usize),
            tapes,
        }
    }

    // The rule up to its tapes, with its own comment c; k comments lead it.
    fn put_head(self, sheet: &mut Sheet, tokens: &Tokens, c: Span, k: usize)
        requires { (self.line < tokens.now.count)
            × (11 + 7 * self.tapes + 2 * k < 2 ^ 32) }
        ensures { Puts (head_words (tokens_of tokens.now) self c self.tapes k) sheet.old sheet.new }
    {
        let size = ACTIONS + ACTION_WORDS * self.tapes + PLACE_WORDS * k;
        let from = tokens.at(self.line + entry::FROM);
        let to = tokens.at(self.to);
        let line = tokens.at(self.line);
        sheet.words(&[
            size as u32,
            from.start,
            from.end,
            to.start,
            to.end,
            line.start,
            line.end,
            c.start,
            c.end,
            self.tapes as u32,
            k as u32,
        ]);
    }

    // The tapes of a choice: the symbols read stand at the indices `members`. Its index counts the writes and the moves too.
    fn put_tapes(self, sheet: &mut Sheet, tokens: &Tokens, blank: u32, members: &[u32])
        requires { (self.write + 2 * length members.now < 2 ^ 64)
            × (self.dir + 2 * length members.now < 2 ^ 64) }
        ensures { Puts (tapes_words blank (tokens_of tokens.now) self.write self.dir
            (map (peek (tokens_of tokens.now)) members.now)) sheet.old sheet.new }
    {
        // A copy stays in registers.
        let tokens = *tokens;
        for (t, &x) in members.iter().enumerate() {
            let r = tokens.at(x as usize);
            let w = tokens.at(self.write + 2 * t);
            let d = tokens.at(self.dir + 2 * t);
            tape(sheet, blank, r, w, d);
        }
    }

    // The rule of a choice, with its own comment c, led by the comments from the index `lead` to its line.
    pub(crate) fn put(
        self,
        sheet: &mut Sheet,
        tokens: &Tokens,
        blank: u32,
        members: &[u32],
        c: Span,
        lead: usize,
    )
        requires placed { Placed tokens.now.count self }
        requires members { length members.now ≡ self.tapes }
        ensures { Puts (rule_words blank (tokens_of tokens.now) self c (between (tokens_of tokens.now) lead self.line)
            (map (peek (tokens_of tokens.now)) members.now)) sheet.old sheet.new }
    {
        let k = comments::count_between(tokens, lead, self.line);
        self.put_head(sheet, tokens, c, k);
        self.put_tapes(sheet, tokens, blank, members);
        comments::comments(sheet, tokens, lead, self.line);
    }
}
