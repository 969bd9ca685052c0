// A step of a pass over one line, or one token of F's line: its diagnostic by a log of one record, and the search behind it.
// Tokens and search stay two parameters: the search is handed on by value, and the tokens are a
// part of work that is borrowed for one step.
// Four functions make the row and the log in the same way: one over a closure that appends would have to say in its contract what
// a call appends and, for F, how it leaves the marks.
ghost use Rattle.std.specs.Prelude.{◌≡◌, List, ◌++◌, ℕ, ◌+◌, ◌≤◌, ◌<◌, ◌^◌, length};
ghost use Rattle.diag.specs.Appends.{Appends, CanCount};
ghost use Rattle.tokens.specs.Row.{peek};
ghost use Rattle.tokens.specs.Listed.{tokens_of};
ghost use Rattle.assembler.specs.Rows.{place_of};
ghost use Rattle.assembler.specs.Entries.{entry_at};
ghost use Rattle.assembler.specs.Failures.{line_error};
ghost use Rattle.assembler.specs.Finals.{name_at, final_error_at};
ghost use Rattle.assembler.specs.Marked.{row_of, Marked};
ghost use Rattle.assembler.specs.Rules.{max_transitions, verdict, rule_error};
ghost use Rattle.diag_search.specs.Cursor.{moved, ruled, stepped, taken, next_line};
ghost use Rattle.diag_search.specs.Repeats.{name_error};

use crate::{Pass, Search, Step};
use assembler::finals::Names;
use assembler::{declarations, entry, failures, rules};
use diag::{DIAGNOSTIC_WORDS, Log};
use parser::DECLARATIONS;
use tokens::{Tokens, span_of};

// A step to a search, with what a log of one record took: n says whether it took one, and not how much of the row is used.
fn stepped(search: Search, row: &[u32; DIAGNOSTIC_WORDS], n: usize) -> Step
    ensures { result ≡ stepped search row.now n }
{
    let found = (n == 1).then_some(diag::record_at(row, 0));
    Step { search, found }
}

// A line, as one that may have failed.
pub(crate) fn failure(tokens: &Tokens, s: Search) -> Step
    requires { s.at + 2 < 2 ^ 64 }
    ensures taken { taken result ≡ line_error (peek (tokens_of tokens.now) s.at) }
    ensures search { result.search ≡ moved s Pass.Failures (next_line (tokens_of tokens.now) s.at) }
{
    let mut row = [0u32; DIAGNOSTIC_WORDS];
    let mut log = Log::new(&mut row);
    let t = tokens.at(s.at);
    failures::line_error(t, &mut log);
    let n = log.count();
    stepped(s.moved(Pass::Failures, entry::next_line(t, s.at)), &row, n)
}

// The diagnostic of the line at an index that declares a name, given the first declarations.
fn name_error(tokens: &Tokens, at: usize, first: &[u32; DECLARATIONS], log: &mut Log)
    requires { (at < tokens.now.count)
        × CanCount log.old 1 }
    ensures { Appends log.old log.new (name_error (tokens_of tokens.now) first.now (entry_at (tokens_of tokens.now) at)) }
{
    let t = tokens.at(at);
    if t.kind < entry::ITEM {
        return;
    }
    let k = (t.kind - entry::ITEM) as usize;
    if DECLARATIONS <= k {
        return;
    }
    let f = first[k] as usize;
    if f == at {
        declarations::tapes_error(tokens, at, log);
    } else {
        declarations::duplicate(tokens, f, t, log);
    }
}

// A line, as one that may declare a name.
pub(crate) fn name(tokens: &Tokens, s: Search) -> Step
    requires { (s.at < tokens.now.count)
        × (s.at + 2 < 2 ^ 64) }
    ensures taken { taken result ≡ name_error (tokens_of tokens.now) s.first (entry_at (tokens_of tokens.now) s.at) }
    ensures search { result.search ≡ moved s Pass.Names (next_line (tokens_of tokens.now) s.at) }
{
    let mut row = [0u32; DIAGNOSTIC_WORDS];
    let mut log = Log::new(&mut row);
    let first = s.first;
    let t = tokens.at(s.at);
    name_error(tokens, s.at, &first, &mut log);
    let n = log.count();
    stepped(s.moved(Pass::Names, entry::next_line(t, s.at)), &row, n)
}

// A token of F's line.
pub(crate) fn listed(names: &Names, marks: &mut [u32], s: Search, declared: bool) -> Step
    requires { (s.at < names.now.tokens.count)
        × (names.now.tokens.count ≤ length marks.old) }
    ensures search { result.search ≡ moved s Pass.Finals (s.at + 1) }
    ensures taken { (qs before : List ℕ) → Marked names.now marks.old qs before
        → (taken result ≡ final_error_at names.now.text.now (row_of names.now) declared qs before s.at)
        × Marked names.now marks.new qs (before ++ name_at s.at (peek (row_of names.now) s.at)) }
{
    let mut row = [0u32; DIAGNOSTIC_WORDS];
    let mut log = Log::new(&mut row);
    names.final_at(marks, s.at, declared, &mut log);
    let n = log.count();
    stepped(s.moved(Pass::Finals, s.at + 1), &row, n)
}

// A line, as one that may be a rule.
pub(crate) fn rule(tokens: &Tokens, s: Search) -> Step
    requires { (tokens.now.count < 2 ^ 31)
        × (s.at < tokens.now.count)
        × (s.tally.rules ≤ max_transitions) }
    ensures taken { taken result
        ≡ rule_error (verdict s.tally.rules (entry_at (tokens_of tokens.now) s.at)) s.tally.cut
        (place_of (peek (tokens_of tokens.now) s.at)) }
    ensures search { result.search ≡ ruled (tokens_of tokens.now) s }
{
    let mut row = [0u32; DIAGNOSTIC_WORDS];
    let mut log = Log::new(&mut row);
    let t = tokens.at(s.at);
    let v = rules::verdict_at(tokens, s.at, s.tally.rules);
    rules::rule_error(v, s.tally.cut, span_of(t), &mut log);
    let n = log.count();
    let next = s.moved(Pass::Rules, entry::next_line(t, s.at));
    stepped(next.tallied(s.tally.after(v)), &row, n)
}
