// The expansion of rules: every choice of one symbol from each read set, the last tape fastest. The sheet is written, the
// tokens are read and the blank is a number, which no fact ties together, so that they are three parameters, here and in rules.
// Symbols of infer_symbols has the tokens and the blank as one for its many methods; here five functions hand both on, and
// those that resolve symbols take the blank alone.
ghost use Rattle.std.specs.Prelude.{◌≡◌, ◌+◌, ◌*◌, ◌^◌, ◌<◌, ◌≤◌, [], length};
ghost use Rattle.tokens.specs.Listed.{tokens_of};
ghost use Rattle.language.specs.Layout.{flat, no_place};
ghost use Rattle.sheet.specs.Puts.{Puts};
ghost use Rattle.sheet.specs.Wheels.{choices_behind};
ghost use Rattle.sheet.specs.Rules.{rule_words, Placed, expanded, rules};

use crate::comments::Pending;
use crate::put::Sheet;
use crate::rules::Rule;
use crate::{rules, wheels};
use assembler::entry;
use diag::Span;
use tokens::Tokens;

// The rules of the choices behind the one at which the wheels stand; no comments go with them. Paper 01 names these labelled
// loops: the inner turns the wheels from the last, and leaves the outer when all have started again.
fn choices(
    sheet: &mut Sheet,
    tokens: &Tokens,
    blank: u32,
    r: Rule,
    entries: &[u32],
    members: &mut [u32],
)
    requires placed { Placed tokens.now.count r }
    requires wheels { (length entries.now ≡ r.tapes)
        × (length members.old ≡ r.tapes) }
    ensures { Puts (flat (rule_words blank (tokens_of tokens.now) r no_place [])
        (choices_behind (tokens_of tokens.now) entries.now members.old)) sheet.old sheet.new }
{
    'choices: loop {
        let mut t = entries.len();
        loop {
            if t == 0 {
                break 'choices;
            }
            t -= 1;
            if wheels::turn(tokens, entries, members, t) {
                break;
            }
        }
        r.put(sheet, tokens, blank, members, Span::NONE, r.line);
    }
}

// The rules that the line at an index stands for; the comments that lead it begin at the index `lead`.
pub(crate) fn expand(
    sheet: &mut Sheet,
    tokens: &Tokens,
    blank: u32,
    line: usize,
    lead: usize,
    entries: &mut [u32],
    members: &mut [u32],
)
    requires wheels { (tokens.now.count ≤ length entries.old)
        × (tokens.now.count ≤ length members.old) }
    requires line { (9 * tokens.now.count + 11 < 2 ^ 32)
        × (line < tokens.now.count) }
    ensures { Puts (expanded blank (tokens_of tokens.now) lead line) sheet.old sheet.new }
{
    let sets = tokens.at(line + entry::COUNTS).start as usize;
    let first = rules::first_entry(tokens, line + entry::READ);
    let n = wheels::wheels(tokens, first, sets, entries, members);
    let r = Rule::at(tokens, line, n);
    let c = rules::own_place(tokens, line);
    r.put(sheet, tokens, blank, &members[..n], c, lead);
    choices(sheet, tokens, blank, r, &entries[..n], &mut members[..n]);
}

// The rules of a row. Where a line ends is found while it is read, so that no `for` counts the steps.
pub fn rules(
    sheet: &mut Sheet,
    tokens: &Tokens,
    blank: u32,
    entries: &mut [u32],
    members: &mut [u32],
)
    requires wheels { (tokens.now.count ≤ length entries.old)
        × (tokens.now.count ≤ length members.old) }
    requires small { 9 * tokens.now.count + 11 < 2 ^ 32 }
    ensures { Puts (rules blank (tokens_of tokens.now)) sheet.old sheet.new }
{
    let mut p = Pending::NOTHING;
    let mut i = 0;
    while i < tokens.count {
        let t = tokens.known(i);
        if t.kind == entry::RULE {
            expand(sheet, tokens, blank, i, p.lead_from(), entries, members);
        }
        p = p.passed(t, i);
        i = entry::next_line(t, i);
    }
}
