// Assembly of a description from the tokens in a row of words (the source's dsl/parser.rs, Assembler): lines are parsed once, one
// walk over the lines finds the declarations and the number of rules, and passes over them append the diagnostics.
#![tactic(auto)]

ghost use Rattle.std.specs.Prelude.{◌≡◌, ◌++◌, ◌+◌, ◌*◌, ◌≤◌, ◌<◌, ◌^◌, length};
ghost use Rattle.diag.specs.Appends.{Appends, CanCount};
ghost use Rattle.assembler.specs.Rows.{rows};
ghost use Rattle.assembler.specs.Entries.{entries};
ghost use Rattle.assembler.specs.Feeds.{Fed};
ghost use Rattle.assembler.specs.Finals.{Kept, finals_errors};
ghost use Rattle.assembler.specs.Rules.{rule_errors, no_rules};
ghost use Rattle.assembler.specs.Assembled.{Tokenized, has_states, Named, Diagnosed, Outcome, LaidFor, words_from};

pub mod declarations;
pub mod entry;
pub mod failures;
pub mod finals;
pub mod lines;
pub mod pass;
pub mod rules;
pub mod seek;
pub mod sets;
pub mod survey;

use declarations::{UNDECLARED, line};
use diag::Log;
use lexer::TOKEN_WORDS;
use parser::{DECLARATIONS, ItemKind};
use tokens::Tokens;

// Work is rows of one word more than the text has bytes: those of the tokens, and behind them
// the row of first equal words and the marks.
// How many rows stand in front of the row of first equal words.
pub const FIRSTS: usize = TOKEN_WORDS;

// How many rows stand in front of the marks.
pub const MARKS: usize = FIRSTS + 1;

// What assembly finds: the first declaration of each name, the number of rules, and the number of diagnostics.
#[derive(Clone, Copy, Debug, PartialEq, Eq)]
pub struct Assembled {
    // For each name the index of its line, or a number that is no index of a token where none declares it:
    // `declarations::line` tells which. Options would not say that such a line is among the tokens, and each function would
    // have to ask that of its callers, of whom none is asked now. Here and above the row is an array, and no struct with a
    // method that takes a name: it would save `as usize`, and each contract and definition, which say of it what they say of
    // a list of words, would name its field besides.
    pub first: [u32; DECLARATIONS],
    pub rules: usize,
    pub errors: usize,
}

// Whether a description may have states: it declares Q, a start or F, or it has rules.
pub fn has_states(count: usize, first: &[u32; DECLARATIONS], rules: usize) -> bool
    ensures { result ≡ has_states count first.now rules }
{
    let states = line(first[ItemKind::States as usize], count).is_some();
    let start = line(first[ItemKind::Start as usize], count).is_some();
    let finals = line(first[ItemKind::Final as usize], count).is_some();
    states | start | finals | (0 < rules)
}

// Puts the row of first equal words behind the tokens, where it is looked at: F lists names, or there is none of `wrong`
// diagnostics, so that a machine follows, and it may have states. Here and below the words are written, so that the row and the
// number of tokens stay apart: Tokens lends them to be read alone. What was found goes on one by one, since an Assembled has the
// number of all diagnostics, which is not known yet.
fn names(
    text: &[u8],
    work: &mut [u32],
    count: usize,
    first: &[u32; DECLARATIONS],
    wrong: usize,
    rules: usize,
)
    requires { LaidFor text.now count work.old }
    ensures { Kept (words_from (length text.now)) work.old work.new
        × Named text.now count work.new first.now wrong rules }
{
    let listed = line(first[ItemKind::Final as usize], count).is_some();
    if !listed && (0 < wrong || !has_states(count, first, rules)) {
        return;
    }
    let base = text.len() + 1;
    assembler_names::intern(text, work, count, FIRSTS * base, MARKS * base, base);
}

// The diagnostics of F and those of the rules, of which there are `wrong`, behind others; `rules` is how many rules there are.
// The words are the tokens, the row of first equal words and the marks.
fn finals_and_rules(
    text: &[u8],
    work: &mut [u32],
    count: usize,
    first: &[u32; DECLARATIONS],
    wrong: usize,
    rules: usize,
    log: &mut Log,
)
    requires laid { LaidFor text.now count work.old }
    requires room { CanCount log.old (2 * count) }
    requires fed { Fed (rows count work.old) }
    requires wrong { wrong ≡ length (rule_errors no_rules (entries (rows count work.old))) }
    ensures kept { Kept (words_from (length text.now)) work.old work.new }
    ensures named { Named text.now count work.new first.now log.new.count rules }
    ensures log { Appends log.old log.new
        (finals_errors text.now (rows count work.old) first.now ++ rule_errors no_rules (entries (rows count work.old))) }
{
    names(text, work, count, first, log.count() + wrong, rules);
    let base = text.len() + 1;
    let (front, marks) = work.split_at_mut(MARKS * base);
    let (words, firsts) = front.split_at(FIRSTS * base);
    let tokens = Tokens { words, count };
    finals::finals(text, &tokens, firsts, marks, first, log);
    pass::ruled(&tokens, wrong, log);
}

// The lines that were entered: one walk counts, and the passes that have diagnostics follow.
fn diagnose(text: &[u8], work: &mut [u32], count: usize, row: &mut [u32]) -> Assembled
    requires { LaidFor text.now count work.old
        × Fed (rows count work.old) }
    ensures { Diagnosed text.now count work.old work.new row.old row.new result }
{
    let mut first = UNDECLARED;
    let mut log = Log::new(row);
    let tokens = Tokens { words: work, count };
    let counts = survey::survey(&tokens, &mut first);
    pass::failed(&tokens, counts.failures, &mut log);
    pass::declared(&tokens, counts.names, &mut log);
    let rules = counts.rules;
    finals_and_rules(text, work, count, &first, counts.wrong, rules, &mut log);
    Assembled {
        first,
        rules,
        errors: log.count(),
    }
}

// Assembles the description whose tokens stand in work: finds its declarations, counts its
// rules, and appends its diagnostics to the log.
pub fn assemble(text: &[u8], work: &mut [u32], count: usize, log: &mut [u32]) -> Assembled
    requires { Tokenized text.now count work.old }
    ensures { Outcome text.now count work.old work.new log.old log.new result }
{
    lines::lines(work, count);
    diagnose(text, work, count, log)
}
