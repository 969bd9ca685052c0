// The diagnostics of rules.
ghost use Rattle.std.specs.Prelude.{◌≡◌, ◌+◌, ◌<◌, ◌≤◌, ◌^◌};
ghost use Rattle.diag.specs.Appends.{Appends, CanCount};
ghost use Rattle.diag.specs.declared.Span.{Span};
ghost use Rattle.tokens.specs.Listed.{tokens_of};
ghost use Rattle.assembler.specs.Entries.{entry_at, entries};
ghost use Rattle.assembler.specs.Feeds.{Fed};
ghost use Rattle.assembler.specs.Rules.{max_transitions, same_arity, verdict, after, rule_error, rule_errors, no_rules};

use crate::{entry, seek, sets};
use diag::{Code, Diagnostic, Log, Span};
use tokens::{Token, Tokens, span_of};

// More rules than this are too many.
pub const MAX_TRANSITIONS: usize = 262_144;

// The rules so far, and whether one was dropped for the limit. Both go on: a later rule may still be within
// it, so that no Option or enum holds them.
#[derive(Clone, Copy, Debug, PartialEq, Eq)]
pub struct Tally {
    pub rules: usize,
    pub cut: bool,
}

// What becomes of a line. As an Option of a Result it would be read twice: no rule, a rule that is refused, a rule that expands.
#[derive(Clone, Copy, Debug, PartialEq, Eq)]
pub enum Verdict {
    // The line is no rule.
    Other,
    // The reads, writes and moves of the rule differ in number.
    WrongArity,
    // The rule would pass the limit.
    TooMany,
    // The rule expands, and so many rules there are then.
    Expands(usize),
}

impl Tally {
    // The rules so far with one line more.
    pub fn after(self, v: Verdict) -> Self
        ensures { result ≡ after self v }
    {
        match v {
            Verdict::Other | Verdict::WrongArity => self,
            Verdict::TooMany => Self { cut: true, ..self },
            Verdict::Expands(rules) => Self { rules, ..self },
        }
    }
}

// Whether a rule's reads, writes and moves are equal in number.
fn same_arity(p: Token) -> bool
    ensures { result ≡ same_arity p }
{
    p.end == p.start && p.value == p.start
}

// What becomes of the line at an index when n rules came before it.
pub fn verdict_at(tokens: &Tokens, at: usize, n: usize) -> Verdict
    requires inside { (at < tokens.now.count)
        × (tokens.now.count < 2 ^ 32) }
    requires tally { n ≤ max_transitions }
    ensures { result ≡ verdict n (entry_at (tokens_of tokens.now) at) }
{
    if tokens.known(at).kind != entry::RULE {
        return Verdict::Other;
    }
    if !same_arity(tokens.at(at + entry::COUNTS)) {
        return Verdict::WrongArity;
    }
    let to = tokens.at(at + entry::PARTS).start as usize;
    let total = n + sets::combinations(tokens, at + entry::READ, to);
    if total <= MAX_TRANSITIONS {
        return Verdict::Expands(total);
    }
    Verdict::TooMany
}

// The diagnostic of a line, if what becomes of the line has one.
pub fn rule_error(v: Verdict, cut: bool, place: Span, log: &mut Log)
    requires { CanCount log.old 1 }
    ensures { Appends log.old log.new (rule_error v cut place) }
{
    match v {
        Verdict::WrongArity => log.append(Diagnostic::error(Code::WrongArity as u32, place)),
        Verdict::TooMany => {
            if !cut {
                log.append(Diagnostic::error(Code::TooLarge as u32, place));
            }
        }
        Verdict::Other => {}
        Verdict::Expands(_) => {}
    }
}

// The diagnostics of rules. Where a line ends is found while it is read, so that no `for` counts the steps.
pub(crate) fn rules(tokens: &Tokens, log: &mut Log)
    requires few { tokens.now.count < 2 ^ 32 }
    requires room { CanCount log.old tokens.now.count }
    requires fed { Fed (tokens_of tokens.now) }
    ensures { Appends log.old log.new (rule_errors no_rules (entries (tokens_of tokens.now))) }
{
    let mut tally = Tally {
        rules: 0,
        cut: false,
    };
    let mut at = 0;
    while at < tokens.count {
        let t = tokens.known(at);
        let v = verdict_at(tokens, at, tally.rules);
        rule_error(v, tally.cut, span_of(t), log);
        tally = tally.after(v);
        at = seek::behind_line(tokens, at, t);
    }
}
