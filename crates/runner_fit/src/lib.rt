// What a machine that was read is refused for before it runs, from the head, the sheet and the text that a reading call answered
// with. Nothing is asked of them: forged words have an answer too.
#![tactic(auto)]

ghost use Rattle.std.specs.Prelude.{◌≡◌, ◌&&◌, leb, option_map};
ghost use Rattle.language.specs.Agreement.{records, content_of_answer};
ghost use Rattle.running.specs.Refusals.{unfit_for};
ghost use Rattle.runner_answer.specs.Answer.{unfit_in};
ghost use Rattle.runner_fit.specs.Tests.{same_arity, by_tests};

use machine::Head;
use runner_answer::Unfit;
use runner_input::input_length;
use sheet_view::after;
use sheet_view::rule::rule_at;
use sheet_view::sections::Sections;

// The most tapes that a run has.
const MOST_TAPES: u8 = 3;

// Whether a machine has 1 to 3 tapes.
fn has_tapes(tapes: u8) -> bool
    ensures { result ≡ (leb 1 tapes && leb tapes 3) }
{
    1 <= tapes && tapes <= MOST_TAPES
}

// Whether each of n rules acts on so many tapes.
fn has_arity(rules: &[u32], n: u32, tapes: u8) -> bool
    ensures { result ≡ same_arity tapes (records n rules.now) }
{
    let mut rest = rules;
    for _ in 0..n {
        let rule = rule_at(rest, 0);
        if rule.arity() != u32::from(tapes) {
            return false;
        }
        rest = after(rest, rule.length() as usize);
    }
    true
}

// Whether half a tape has a cell, and room for an input of so many characters.
fn has_room(half: u64, input: usize) -> bool
    ensures { result ≡ (leb 1 half && leb input half) }
{
    1 <= half && input as u64 <= half
}

// The first of the tests that fails, in the order of the refusals.
fn first_failed(tapes: bool, arity: bool, room: bool) -> Option<Unfit>
    ensures { option_map unfit_in result ≡ by_tests tapes arity room }
{
    if !tapes {
        return Some(Unfit::WrongTapes);
    }
    if !arity {
        return Some(Unfit::WrongArity);
    }
    if !room {
        return Some(Unfit::TooFewCells);
    }
    None
}

// What a machine is refused for on so many cells.
pub fn unfit(head: Head, sheet: &[u32], text: &[u8], cells: usize) -> Option<Unfit>
    ensures { option_map unfit_in result
        ≡ unfit_for (content_of_answer (record { head = head; sheet = sheet.now; text = text.now })) cells }
{
    let sections = Sections {
        counts: head.counts,
        states: sheet,
    };
    let arity = has_arity(sections.rules(), head.counts.rules, head.tapes);
    let half = runner_tapes::half(cells, head.tapes);
    let room = has_room(half, input_length(text, head.input));
    first_failed(has_tapes(head.tapes), arity, room)
}
