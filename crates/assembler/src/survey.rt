// What the lines hold, found in one walk that stores nothing: the first declarations, the number of
// rules, and how many diagnostics there are.
ghost use Rattle.std.specs.Prelude.{◌<◌, ◌^◌};
ghost use Rattle.tokens.specs.Listed.{tokens_of};
ghost use Rattle.assembler.specs.Feeds.{Fed};
ghost use Rattle.assembler.specs.Survey.{Surveyed};

use crate::rules::Tally;
use crate::{declarations, entry, failures, rules, seek};
use diag::Log;
use parser::DECLARATIONS;
use tokens::{Tokens, span_of};

// The number of rules, and of the diagnostics of failed lines, of declarations and of rules.
#[derive(Clone, Copy, Debug, PartialEq, Eq)]
pub struct Counts {
    pub rules: usize,
    pub failures: usize,
    pub names: usize,
    pub wrong: usize,
}

// The counts of all lines; those that hold nothing, or a comment alone, change none. The logs have no words, so that they only
// count. Where a line ends is found while it is read, so that no `for` counts the steps.
pub(crate) fn survey(tokens: &Tokens, first: &mut [u32; DECLARATIONS]) -> Counts
    requires few { tokens.now.count < 2 ^ 32 }
    requires fed { Fed (tokens_of tokens.now) }
    ensures { Surveyed tokens.now.count tokens.now.words.now first.old first.new result }
{
    let mut tally = Tally {
        rules: 0,
        cut: false,
    };
    let mut failures = Log::new(&mut []);
    let mut names = Log::new(&mut []);
    let mut wrong = Log::new(&mut []);
    let mut at = 0;
    while at < tokens.count {
        let t = tokens.known(at);
        if t.kind < entry::ITEM {
            at = entry::next_line(t, at);
        } else {
            failures::line_error(t, &mut failures);
            declarations::declaration(tokens, at, first, &mut names);
            let v = rules::verdict_at(tokens, at, tally.rules);
            rules::rule_error(v, tally.cut, span_of(t), &mut wrong);
            tally = tally.after(v);
            at = seek::behind_line(tokens, at, t);
        }
    }
    Counts {
        rules: tally.rules,
        failures: failures.count(),
        names: names.count(),
        wrong: wrong.count(),
    }
}
