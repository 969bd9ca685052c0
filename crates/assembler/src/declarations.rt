// The first declaration of each name, and the diagnostics of declarations.
// The tokens are lent to be read and the log to be written, and a place in one goes with any place in the other, so that they are
// two parameters, here and in failures, pass and rules. That the tokens are few and fed is asked by the walks over all lines,
// here and there: a struct that says so would be taken apart again for the functions of one line. That the log can count on is
// asked of each: a bound in Log would ask it of whoever makes one.
ghost use Rattle.std.specs.Prelude.{◌≡◌, [], ◌∷◌, ◌+◌, ◌<◌, ◌^◌};
ghost use Rattle.diag.specs.Log.{error, with_related};
ghost use Rattle.diag.specs.Appends.{Appends, CanCount};
ghost use Rattle.tokens.specs.Row.{peek};
ghost use Rattle.tokens.specs.Listed.{tokens_of};
ghost use Rattle.assembler.specs.Rows.{place_of};
ghost use Rattle.assembler.specs.Entries.{entry_at, entries};
ghost use Rattle.assembler.specs.Feeds.{Fed};
ghost use Rattle.assembler.specs.Declarations.{line, declare, declarations, tapes_error, declaration_error, declaration_errors};

use crate::{entry, seek};
use diag::{Code, Diagnostic, Log};
use lexer::MAX_TAPES;
use parser::{DECLARATIONS, ItemKind};
use tokens::{Token, Tokens, span_of};

// The first declarations of no lines: for each name a number that is no index of a token.
pub const UNDECLARED: [u32; DECLARATIONS] = [u32::MAX; DECLARATIONS];

// The line of a first declaration among so many tokens; a number that is no index of theirs stands for none.
pub fn line(first: u32, count: usize) -> Option<usize>
    ensures { result ≡ line count first }
{
    let at = first as usize;
    let inside = at < count;
    inside.then_some(at)
}

// The diagnostic of a line that declares too many tapes, at the value.
pub fn tapes_error(tokens: &Tokens, at: usize, log: &mut Log)
    requires { (at < tokens.now.count)
        × CanCount log.old 1 }
    ensures { Appends log.old log.new (tapes_error (entry_at (tokens_of tokens.now) at)) }
{
    if tokens.known(at).kind == entry::ITEM + ItemKind::Tapes as u32 {
        let v = tokens.at(at + entry::VALUE);
        if MAX_TAPES < v.value {
            log.append(Diagnostic::error(Code::TooLarge as u32, span_of(v)));
        }
    }
}

// The diagnostic of a name that is declared again by the token t, related to its first declaration, f.
pub fn duplicate(tokens: &Tokens, f: usize, t: Token, log: &mut Log)
    requires { CanCount log.old 1 }
    ensures { Appends log.old log.new (with_related (error 11 (place_of t)) (place_of (peek (tokens_of tokens.now) f)) ∷ []) }
{
    let d = Diagnostic::error(Code::Duplicate as u32, span_of(t));
    log.append(d.with_related(span_of(tokens.at(f))));
}

// The diagnostic of the line at an index, or its declaration if it is the first of its name.
pub(crate) fn declaration(
    tokens: &Tokens,
    at: usize,
    first: &mut [u32; DECLARATIONS],
    log: &mut Log,
)
    requires inside { (at < tokens.now.count)
        × (tokens.now.count < 2 ^ 32) }
    requires room { CanCount log.old 1 }
    ensures first { first.new ≡ declare tokens.now.count first.old (entry_at (tokens_of tokens.now) at) }
    ensures log { Appends log.old log.new
        (declaration_error (tokens_of tokens.now) first.old (entry_at (tokens_of tokens.now) at)) }
{
    let t = tokens.known(at);
    if t.kind < entry::ITEM {
        return;
    }
    let k = (t.kind - entry::ITEM) as usize;
    if DECLARATIONS <= k {
        return;
    }
    if let Some(f) = line(first[k], tokens.count) {
        duplicate(tokens, f, t, log);
        return;
    }
    first[k] = at as u32;
    tapes_error(tokens, at, log);
}

// The first declarations of all lines, and the diagnostics of the others. Where a line ends is found while it is
// read, so that no `for` counts the steps.
pub(crate) fn declarations(tokens: &Tokens, first: &mut [u32; DECLARATIONS], log: &mut Log)
    requires few { tokens.now.count < 2 ^ 32 }
    requires room { CanCount log.old tokens.now.count }
    requires fed { Fed (tokens_of tokens.now) }
    ensures first { first.new ≡ declarations tokens.now.count first.old (entries (tokens_of tokens.now)) }
    ensures log { Appends log.old log.new (declaration_errors (tokens_of tokens.now) first.old (entries (tokens_of tokens.now))) }
{
    let mut at = 0;
    while at < tokens.count {
        declaration(tokens, at, first, log);
        at = seek::behind_feed(tokens, at);
    }
}
