// The diagnostics of the lines that failed.
ghost use Rattle.std.specs.Prelude.{◌+◌, ◌<◌, ◌^◌};
ghost use Rattle.diag.specs.Appends.{Appends, CanCount};
ghost use Rattle.tokens.specs.Listed.{tokens_of};
ghost use Rattle.assembler.specs.Entries.{entries};
ghost use Rattle.assembler.specs.Feeds.{Fed};
ghost use Rattle.assembler.specs.Failures.{line_error, line_errors};

use crate::{entry, seek};
use diag::{Diagnostic, Log};
use tokens::{Token, Tokens, span_of};

// The diagnostic of the line that begins with the token t, if it failed.
pub fn line_error(t: Token, log: &mut Log)
    requires { CanCount log.old 1 }
    ensures { Appends log.old log.new (line_error t) }
{
    if entry::FAILED <= t.kind {
        log.append(Diagnostic::error(t.kind - entry::FAILED, span_of(t)));
    }
}

// The diagnostics of all lines that failed. Where a line ends is found while it is read, so that no `for` counts the steps.
pub(crate) fn line_errors(tokens: &Tokens, log: &mut Log)
    requires room { CanCount log.old tokens.now.count }
    requires fed { Fed (tokens_of tokens.now) }
    ensures { Appends log.old log.new (line_errors (entries (tokens_of tokens.now))) }
{
    let mut at = 0;
    while at < tokens.count {
        line_error(tokens.known(at), log);
        at = seek::behind_feed(tokens, at);
    }
}
