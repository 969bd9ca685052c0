// The rules of a machine that was read: for each state where its first rule stands in the sheet, and from there on the first rule
// that matches. Names are compared by their numbers (runner_names), and a state's rules by the words of their records, so that no
// name is looked at while a machine runs.
#![tactic(auto)]

ghost use Rattle.std.specs.Prelude.{◌≡◌, ◌≤◌, true, length};
ghost use Rattle.lexer.specs.Words.{work_needed};
ghost use Rattle.form_theorems.specs.Read.{ReadAs};
ghost use Rattle.running.specs.Batch.{content_of_text};
ghost use Rattle.running.specs.Refusals.{has_tapes, has_arity};
ghost use Rattle.runner_rules.specs.Rules.{RulesOf};

mod firsts;
mod search;

use firsts::{of_rules, of_states};
use machine::Head;
use runner_names::{ROWS_BEFORE_NUMBERS, number};
pub use search::{Due, Known, Rules};
use sheet_view::sections::Sections;

// Numbers the names of the machine that a text was read as, and finds the first rule of each state. The rules keep work.
pub fn rules_of<'a>(text: &'a [u8], head: Head, sheet: &'a [u32], work: &'a mut [u32]) -> Rules<'a>
    requires read { ReadAs text.now head sheet.now }
    requires room { work_needed (length text.now) ≤ length work.old }
    requires tapes { has_tapes (content_of_text text.now) ≡ true }
    requires arity { has_arity (content_of_text text.now) ≡ true }
    ensures rules { RulesOf result }
    ensures text { result.text.now ≡ text.now }
    ensures tapes { result.tapes ≡ head.tapes }
{
    number(text, head, sheet, work);
    let base = text.len() + 1;
    let (front, numbers) = work.split_at_mut(ROWS_BEFORE_NUMBERS * base);
    let (positions, rest) = front.split_at_mut(base);
    let firsts = &mut rest[..2 * base];
    let words = Sections {
        counts: head.counts,
        states: sheet,
    }
    .rules();
    of_states(sheet, positions, firsts);
    let end = of_rules(words, head.counts.rules, numbers, firsts);
    Rules {
        text,
        words,
        end,
        tapes: head.tapes,
        numbers,
        firsts,
    }
}
