// The rules of a plain form, from the words of the sheet and the text. Each function appends one piece to a lent output, as crate
// `emit` does.
#![tactic(auto)]

ghost use Rattle.std.specs.Prelude.{map};
ghost use Rattle.language.specs.Plain.{each, rule_lines};
ghost use Rattle.language.specs.Agreement.{records, rule_in};
ghost use Rattle.form_strings.specs.Writes.{Writes};
ghost use Rattle.form_lists.specs.Places.{Every};
ghost use Rattle.form_rules.specs.Rules.{rule_left, rule_right};
ghost use Rattle.form_rules.specs.Formed.{RuleFormed, formed_one};

use emit::Output;
use form_lists::{comment_lines, directions, own_comment, symbols, verbatim};
use sheet_layout::{ACTION_WORDS, READ, WRITE};
use sheet_view::after;
use sheet_view::rule::{self, rule_at};

// A rule: the text, and the rule of the sheet.
#[derive(Clone, Copy)]
struct Rule<'a> {
    text: &'a [u8],
    view: rule::Rule<'a>,
    ghost formed: { RuleFormed text.now view.words.now } by { formed_one text.now view.words.now },
}

impl Rule<'_> {
    // The left side, from and what is read: `δ(a, ('x'))`.
    fn left(&self, out: &mut Output)
        ensures { Writes (rule_left (rule_in self.now.text.now self.now.view.words.now)) out.old out.new }
    {
        out.bytes(b"\xCE\xB4(");
        verbatim(out, self.text, self.view.from());
        out.bytes(b", (");
        let n = self.view.arity();
        symbols(out, self.view.actions(), ACTION_WORDS, READ, n);
        out.bytes(b"))");
    }

    // The right side, to, what is written, and the moves: ` = (b, ('y'), (R))`.
    fn right(&self, out: &mut Output)
        ensures { Writes (rule_right (rule_in self.now.text.now self.now.view.words.now)) out.old out.new }
    {
        let actions = self.view.actions();
        let n = self.view.arity();
        out.bytes(b" = (");
        verbatim(out, self.text, self.view.to());
        out.bytes(b", (");
        symbols(out, actions, ACTION_WORDS, WRITE, n);
        out.bytes(b"), (");
        directions(out, actions, n);
        out.bytes(b"))");
    }

    // The lines of a rule: those that lead it, and the rule below them.
    fn lines(&self, out: &mut Output)
        ensures { Writes (rule_lines (rule_in self.now.text.now self.now.view.words.now)) out.old out.new }
    {
        let leading = self.view.leading();
        comment_lines(out, self.text, leading, self.view.leading_count());
        self.left(out);
        self.right(out);
        own_comment(out, self.text, self.view.comment());
        out.bytes(b"\n");
    }
}

// n rules, each of a record that begins with its length.
pub fn rules(out: &mut Output, text: &[u8], words: &[u32], n: u32)
    requires { Every (RuleFormed text.now) (records n words.now) }
    ensures { Writes (each rule_lines (map (rule_in text.now) (records n words.now))) out.old out.new }
{
    let mut rest = words;
    for _ in 0..n {
        let rule = Rule {
            text,
            view: rule_at(rest, 0),
        };
        rule.lines(out);
        rest = after(rest, rule.view.length() as usize);
    }
}
