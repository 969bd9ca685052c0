// The passes that append diagnostics, each left out where it has none to append: k is their number, which a survey
// found. They are three functions, since one that takes the pass as a closure would have to say in its contract what a
// call of it appends, and asks of the tokens.
ghost use Rattle.std.specs.Prelude.{◌≡◌, ◌+◌, ◌<◌, ◌^◌, length};
ghost use Rattle.diag.specs.Appends.{Appends, CanCount};
ghost use Rattle.tokens.specs.Listed.{tokens_of};
ghost use Rattle.assembler.specs.Entries.{entries};
ghost use Rattle.assembler.specs.Feeds.{Fed};
ghost use Rattle.assembler.specs.Failures.{line_errors};
ghost use Rattle.assembler.specs.Declarations.{undeclared, declaration_errors};
ghost use Rattle.assembler.specs.Rules.{rule_errors, no_rules};

use crate::{declarations, failures, rules};
use diag::Log;
use tokens::Tokens;

// The diagnostics of the lines that failed.
pub(crate) fn failed(tokens: &Tokens, k: usize, log: &mut Log)
    requires room { CanCount log.old tokens.now.count }
    requires fed { Fed (tokens_of tokens.now) }
    requires number { k ≡ length (line_errors (entries (tokens_of tokens.now))) }
    ensures { Appends log.old log.new (line_errors (entries (tokens_of tokens.now))) }
{
    if k != 0 {
        failures::line_errors(tokens, log);
    }
}

// The diagnostics of declarations.
pub(crate) fn declared(tokens: &Tokens, k: usize, log: &mut Log)
    requires few { tokens.now.count < 2 ^ 32 }
    requires room { CanCount log.old tokens.now.count }
    requires fed { Fed (tokens_of tokens.now) }
    requires number { k ≡ length (declaration_errors (tokens_of tokens.now) undeclared (entries (tokens_of tokens.now))) }
    ensures { Appends log.old log.new (declaration_errors (tokens_of tokens.now) undeclared (entries (tokens_of tokens.now))) }
{
    if k != 0 {
        let mut first = declarations::UNDECLARED;
        declarations::declarations(tokens, &mut first, log);
    }
}

// The diagnostics of rules.
pub(crate) fn ruled(tokens: &Tokens, k: usize, log: &mut Log)
    requires few { tokens.now.count < 2 ^ 32 }
    requires room { CanCount log.old tokens.now.count }
    requires fed { Fed (tokens_of tokens.now) }
    requires number { k ≡ length (rule_errors no_rules (entries (tokens_of tokens.now))) }
    ensures { Appends log.old log.new (rule_errors no_rules (entries (tokens_of tokens.now))) }
{
    if k != 0 {
        rules::rules(tokens, log);
    }
}
