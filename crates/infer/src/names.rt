// The names of a row of tokens, and their marks: 1 if F lists the name, and 2 more once it was met. The marks
// are words of the lent work, and so numbers.
ghost use Rattle.std.specs.Prelude.{◌≡◌, false, [], ◌∷◌, ◌<◌, ◌≤◌, length};
ghost use Rattle.parser.specs.Row.{peek};
ghost use Rattle.tokens.specs.Listed.{tokens_of};
ghost use Rattle.assembler.specs.Feeds.{Fed};
ghost use Rattle.sheet.specs.Puts.{Puts};
ghost use Rattle.infer.specs.Feeds.{fed_one};
ghost use Rattle.infer.specs.Page.{indices_in};
ghost use Rattle.infer.specs.States.{Inside, list_final, list_finals, finals, mention_at, all_mentions, start_name, inferred};
ghost use Rattle.infer.specs.States.{states_add, states_mark, section};

use assembler::{declarations, entry, seek};
use lexer::kind;
use parser::{DECLARATIONS, ItemKind, view};
use sheet::put::Sheet;
use tokens::{Token, Tokens};

// The mark of a name that F lists.
const FINAL: u32 = 1;

// What the mark of a name is raised by once it was met.
const MET: u32 = 2;

// The tokens of a row with entries, and at a name's index that of the first token with
// the same characters: the index of its mark.
// The marks are no field: each method would have to say then that it keeps the tokens and the firsts. Nor is
// the sheet, which three methods do without.
#[derive(Clone, Copy)]
pub struct Names<'a> {
    pub tokens: Tokens<'a>,
    pub firsts: &'a [u32],
    pub ghost fed: { Fed (tokens_of tokens) } by { fed_one (tokens_of tokens) },
    pub ghost few: { tokens.count ≤ length firsts.now },
    pub ghost low: { Inside tokens.count (tokens_of tokens) firsts.now },
}

impl<'a> Names<'a> {
    ghost use Rattle.infer.specs.Names.{row_of, MarksFit, Named};

    // The name at an index is listed in F, if a state stands there. Crate assembler's mark_state does this
    // over Names of its own, which promise more.
    fn list_final(&self, x: usize, marks: &mut [u32])
        requires marks { MarksFit self.now marks.old }
        ensures { marks.new ≡ list_final self.now.firsts.now (row_of self.now) marks.old x }
    {
        if view::is_state(self.tokens.at(x)) {
            marks[self.firsts[x] as usize] = FINAL;
        }
    }

    // The names of the line at an index are listed in F.
    fn list_finals(&self, line: u32, marks: &mut [u32])
        requires marks { MarksFit self.now marks.old }
        ensures { marks.new ≡ list_finals self.now.firsts.now (row_of self.now) marks.old (indices_in (row_of self.now) line) }
    {
        for x in line as usize + 1..self.tokens.len() {
            if self.tokens.at(x).kind == kind::NEWLINE {
                return;
            }
            self.list_final(x, marks);
        }
    }

    // The name at an index, if a state stands there: stored where it is met for the first time or Q repeats it.
    fn name(&self, x: usize, repeats: bool, marks: &mut [u32], out: &mut Sheet)
        requires marks { MarksFit self.now marks.old }
        ensures { Named self.now repeats (x ∷ []) marks.old marks.new out.old out.new }
    {
        let t = self.tokens.at(x);
        if !view::is_state(t) {
            return;
        }
        let k = self.firsts[x] as usize;
        let m = marks[k];
        if m < MET {
            marks[k] = m + MET;
            out.words(&[t.start, t.end, m]);
        } else if repeats {
            out.words(&[t.start, t.end, 0]);
        }
    }

    // The names of the line at an index.
    // The loops here, of list_finals and of finals::places are three: one with a closure would have to say
    // in its contract what all calls of it do.
    fn names_in(&self, line: u32, repeats: bool, marks: &mut [u32], out: &mut Sheet)
        requires marks { MarksFit self.now marks.old }
        ensures { Named self.now repeats (indices_in (row_of self.now) line) marks.old marks.new out.old out.new }
    {
        for x in line as usize + 1..self.tokens.len() {
            if self.tokens.at(x).kind == kind::NEWLINE {
                return;
            }
            self.name(x, repeats, marks, out);
        }
    }

    // The names that the line at an index, which begins with the token t, mentions, if it is a rule:
    // from, and to, whose index its comma holds.
    fn mention(&self, e: usize, t: Token, marks: &mut [u32], out: &mut Sheet)
        requires marks { MarksFit self.now marks.old }
        requires inside { e < self.now.tokens.count }
        requires first { t ≡ peek (row_of self.now) e }
        ensures { Named self.now false (mention_at (row_of self.now) e) marks.old marks.new out.old out.new }
    {
        if t.kind != entry::RULE {
            return;
        }
        let comma = self.tokens.at(e + entry::PARTS);
        self.name(e + entry::FROM, false, marks, out);
        self.name(comma.start as usize, false, marks, out);
    }

    // The names that all rules mention. Where a line ends is found while it is read, so that no `for` counts the steps.
    fn mentions(&self, marks: &mut [u32], out: &mut Sheet)
        requires marks { MarksFit self.now marks.old }
        ensures { Named self.now false (all_mentions (row_of self.now)) marks.old marks.new out.old out.new }
    {
        let mut e = 0;
        while e < self.tokens.len() {
            let t = self.tokens.at(e);
            let next = seek::behind_line(&self.tokens, e, t);
            self.mention(e, t, marks, out);
            e = next;
        }
    }

    // The name of a declared start.
    fn start_name(&self, start: u32, marks: &mut [u32], out: &mut Sheet)
        requires marks { MarksFit self.now marks.old }
        ensures { Named self.now false (start_name (row_of self.now) start) marks.old marks.new out.old out.new }
    {
        if let Some(s) = declarations::line(start, self.tokens.len()) {
            self.name(s + entry::VALUE, false, marks, out);
        }
    }

    // The states where Q is not declared: the start, from and to of each rule, then F.
    fn inferred(&self, start: u32, finals: u32, marks: &mut [u32], out: &mut Sheet)
        requires marks { MarksFit self.now marks.old }
        ensures { Named self.now false (inferred (row_of self.now) start finals) marks.old marks.new out.old out.new }
    {
        self.start_name(start, marks, out);
        self.mentions(marks, out);
        self.names_in(finals, false, marks, out);
    }

    // Marks the names that F lists, and no other: a mark's index is that of a token, so
    // no more than there are tokens are cleared.
    pub(crate) fn finals(&self, first: &[u32; DECLARATIONS], marks: &mut [u32])
        requires marks { MarksFit self.now marks.old }
        ensures { marks.new ≡ finals self.now.firsts.now (row_of self.now) first.now marks.old }
    {
        marks[..self.tokens.len()].fill(0);
        self.list_finals(first[ItemKind::Final as usize], marks);
    }

    // The states, once the finals are marked.
    pub(crate) fn states(&self, first: &[u32; DECLARATIONS], marks: &mut [u32], out: &mut Sheet)
        requires marks { MarksFit self.now marks.old }
        ensures puts { Puts (states_add self.now.firsts.now (row_of self.now) first.now marks.old) out.old out.new }
        ensures marked { marks.new ≡ states_mark self.now.firsts.now (row_of self.now) first.now marks.old }
    {
        let q = first[ItemKind::States as usize];
        if declarations::line(q, self.tokens.len()).is_some() {
            return self.names_in(q, true, marks, out);
        }
        let start = first[ItemKind::Start as usize];
        self.inferred(start, first[ItemKind::Final as usize], marks, out);
    }

    // The section of states, from the first declarations.
    pub fn section(&self, first: &[u32; DECLARATIONS], marks: &mut [u32], out: &mut Sheet)
        requires marks { MarksFit self.now marks.old }
        ensures { Puts (section self.now.firsts.now (row_of self.now) first.now marks.old) out.old out.new }
    {
        self.finals(first, marks);
        self.states(first, marks, out);
    }
}
