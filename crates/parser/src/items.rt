// Items and lines.
ghost use Rattle.std.specs.Prelude.{◌≡◌, ◌<◌, length};
ghost use Rattle.parser.specs.Row.{tokens_in};
ghost use Rattle.parser.specs.Lines.{side, equals, left_parts, left, right, transition, plain, value, spanning, newline_at, finish, value_at, item_of, item, is_comment, line, line_end};

use crate::row::Row;
use crate::{Failure, Item, ItemKind, Lead, Line, Parsed, Parts, elements, view};
use diag::Span;
use lexer::{keyword, kind};

// A value without parts.
#[tactic(auto, unfolding(crate::specs::Lines::then, crate::specs::Lines::plain))]
fn plain(p: Parsed<usize>) -> Parsed<Parts>
    ensures { result ≡ plain p }
{
    let (end, _) = p?;
    Ok((end, Parts::default()))
}

impl Row<'_> {
    // `(`, a state and a comma.
    #[tactic(auto, unfolding(crate::specs::Lines::then, crate::specs::Lines::side))]
    fn side(self, at: usize) -> Parsed<usize>
        ensures { result ≡ side (tokens_in self.entry.words.now) at }
    {
        let (i, _) = self.expect(at, kind::L_PAREN)?;
        let (j, _) = self.state(i)?;
        self.expect(j, kind::COMMA)
    }

    // `)` and `=`.
    #[tactic(auto, unfolding(crate::specs::Lines::then, crate::specs::Lines::equals))]
    fn equals(self, at: usize) -> Parsed<usize>
        ensures { result ≡ equals (tokens_in self.entry.words.now) at }
    {
        let (i, _) = self.expect(at, kind::R_PAREN)?;
        self.expect(i, kind::EQ)
    }

    // `δ(FROM, READ) =`.
    #[tactic(auto, unfolding(crate::specs::Lines::then, crate::specs::Lines::left))]
    fn left(self, at: usize) -> Parsed<Parts>
        ensures { result ≡ left (tokens_in self.entry.words.now) at }
    {
        let (i, _) = self.expect(at, kind::WORD)?;
        let (read, _) = self.side(i)?;
        let (j, reads) = self.reads(read)?;
        let (end, _) = self.equals(j)?;
        let parts = Parts {
            from: i + 1,
            read,
            reads,
            ..Parts::default()
        };
        Ok((end, parts))
    }

    // `(TO, WRITE, MOVE)`, behind a left side with its parts.
    #[tactic(auto, unfolding(crate::specs::Lines::then, crate::specs::Lines::right))]
    fn right(self, at: usize, left: Parts) -> Parsed<Parts>
        ensures { result ≡ right left (tokens_in self.entry.words.now) at }
    {
        let (write, _) = self.side(at)?;
        let (i, writes) = self.writes(write)?;
        let (dir, _) = self.expect(i, kind::COMMA)?;
        let (j, dirs) = self.directions(dir)?;
        let (end, _) = self.expect(j, kind::R_PAREN)?;
        let parts = Parts {
            to: at + 1,
            write,
            writes,
            dir,
            dirs,
            ..left
        };
        Ok((end, parts))
    }

    // A rule, with `δ`.
    #[tactic(auto, unfolding(crate::specs::Lines::then, crate::specs::Lines::transition))]
    fn transition(self, at: usize) -> Parsed<Parts>
        ensures { result ≡ transition (tokens_in self.entry.words.now) at }
    {
        let (end, parts) = self.left(at)?;
        self.right(end, parts)
    }

    // The value of an item. An index and a kind are no pair: it is the index of the value here, and
    // that of the line in `finish` and `item_of`.
    #[tactic(auto, unfolding(crate::specs::Lines::value))]
    fn value(self, at: usize, kind: ItemKind) -> Parsed<Parts>
        ensures { result ≡ value kind (tokens_in self.entry.words.now) at }
    {
        match kind {
            ItemKind::Machine | ItemKind::Input => plain(self.expect(at, kind::STR)),
            ItemKind::Kind => plain(self.choice(at, keyword::ACCEPTOR, keyword::BEAVER)),
            ItemKind::Output => plain(self.output(at)),
            ItemKind::Tapes => plain(self.expect(at, kind::NUMBER)),
            ItemKind::States | ItemKind::Final => plain(self.state_set(at)),
            ItemKind::InputAlphabet | ItemKind::TapeAlphabet => plain(self.symbol_set(at)),
            ItemKind::Blank => plain(self.symbol(at)),
            ItemKind::Start => plain(self.state(at)),
            ItemKind::Transition => self.transition(at),
        }
    }

    // From the start of the token at i to the end of the last one before j.
    fn spanning(self, i: usize, j: usize) -> Span
        requires { 0 < j }
        ensures { result ≡ spanning (tokens_in self.entry.words.now) i j }
    {
        Span {
            start: self.token(i).start,
            end: self.token(j - 1).end,
        }
    }

    // The index of what ends the line behind an item, a comment passed over.
    #[tactic(auto, using(crate::proofs::Single::before_feed), unfolding(crate::specs::Lines::newline_at))]
    fn newline_at(self, at: usize) -> usize
        ensures { result ≡ newline_at (tokens_in self.entry.words.now) at }
    {
        if self.token(at).kind == kind::COMMENT {
            at + 1
        } else {
            at
        }
    }

    // The line of an item from the index at on, with a value from the index first to end.
    #[tactic(auto, unfolding(crate::specs::Lines::finish))]
    fn finish(
        self,
        at: usize,
        kind: ItemKind,
        first: usize,
        end: usize,
        parts: Parts,
    ) -> Result<Line, Failure>
        requires { 0 < end }
        ensures { result ≡ finish kind (tokens_in self.entry.words.now) at first end parts }
    {
        let newline = self.newline_at(end);
        let t = self.token(newline);
        if t.kind != kind::NEWLINE {
            return Err(elements::unexpected(t));
        }
        Ok(Line::Item(Item {
            kind,
            value: first,
            end,
            newline,
            span: self.spanning(at, end),
            value_span: self.spanning(first, end),
            parts,
        }))
    }

    // Where the value of an item begins.
    #[tactic(auto, using(crate::proofs::Single::few), unfolding(crate::specs::Lines::value_at))]
    fn value_at(self, at: usize, lead: Lead) -> Parsed<usize>
        requires { at < length (tokens_in self.words.now) }
        ensures { result ≡ value_at lead (tokens_in self.entry.words.now) at }
    {
        match lead {
            Lead::Equals => self.expect(at + 1, kind::EQ),
            Lead::Nothing => Ok((at + 1, 0)),
            Lead::Whole => Ok((at, 0)),
        }
    }

    // An item whose keyword stands at an index.
    #[tactic(auto, unfolding(crate::specs::Lines::then, crate::specs::Lines::item_of))]
    fn item_of(self, at: usize, kind: ItemKind) -> Result<Line, Failure>
        requires { at < length (tokens_in self.words.now) }
        ensures { result ≡ item_of kind (tokens_in self.entry.words.now) at }
    {
        let (first, _) = self.value_at(at, view::lead(kind))?;
        let (end, parts) = self.value(first, kind)?;
        self.finish(at, kind, first, end, parts)
    }

    // An item, with its comment and the line's end.
    #[tactic(auto, unfolding(crate::specs::Lines::item, crate::specs::Lines::item_from))]
    fn item(self, at: usize) -> Result<Line, Failure>
        ensures { result ≡ item (tokens_in self.entry.words.now) at }
    {
        let t = self.token(at);
        match view::keyword(t) {
            Some(kind) => self.item_of(at, kind),
            None => Err(elements::unexpected(t)),
        }
    }

    // A comment with nothing behind it.
    #[tactic(auto, using(crate::proofs::Single::before_feed), unfolding(crate::specs::Lines::is_comment))]
    fn is_comment(self, at: usize) -> bool
        ensures { result ≡ is_comment (tokens_in self.entry.words.now) at }
    {
        self.token(at).kind == kind::COMMENT && self.token(at + 1).kind == kind::NEWLINE
    }
}

// The line that begins at an index, or why it is refused. A row and an index, so that callers need no struct of this crate.
#[tactic(auto, unfolding(crate::specs::Lines::line))]
pub fn line(work: &[u32], at: usize) -> Result<Line, Failure>
    ensures { result ≡ line (tokens_in work.now) at }
{
    let row = Row { words: work };
    if row.token(at).kind == kind::NEWLINE {
        Ok(Line::Blank)
    } else if row.is_comment(at) {
        Ok(Line::Comment(at))
    } else {
        row.item(at)
    }
}

// The index of the line feed that ends the line; the next line begins behind it.
#[tactic(auto, using(crate::proofs::Rules::ends))]
pub fn line_end(work: &[u32], at: usize) -> usize
    ensures { result ≡ line_end (tokens_in work.now) at }
{
    // By hand: `token` already says what stands behind the last token, which an iterator over the row would have to be told.
    let row = Row { words: work };
    let mut i = at;
    while row.token(i).kind != kind::NEWLINE {
        i += 1;
    }
    i
}
