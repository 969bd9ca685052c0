// The run of a machine that was read, on lent cells: it starts afresh, and does one step after the other until it stops or the
// steps that are left are used. A long run may be cut: where it was spent, it goes on with more steps.
#![tactic(auto)]

ghost use Rattle.std.specs.Prelude.{◌≡◌, ◌≤◌, true, length, IfOk, IfErr};
ghost use Rattle.lexer.specs.Words.{work_needed};
ghost use Rattle.language.specs.Layout.{head_of};
ghost use Rattle.language.specs.Agreement.{characters_at};
ghost use Rattle.language.specs.Outcome.{admitted};
ghost use Rattle.form_theorems.specs.Read.{machine_in, ReadAs};
ghost use Rattle.running.specs.Tape.{half, tape_cells, blank_tapes, initial};
ghost use Rattle.running.specs.Run.{due_in, step_from, run_from, run_on};
ghost use Rattle.running.specs.Fit.{Fit};
ghost use Rattle.running.specs.Batch.{content_of_text};
ghost use Rattle.runner_tapes.specs.Shown.{symbols_of, Stands};
ghost use Rattle.runner_rules.specs.Due.{record_at};
ghost use Rattle.runner_rules.specs.Rules.{RulesOf, RecordOf, Named, Knows};
ghost use Rattle.runner_loop.specs.Runs.{configuration_of, ended_of};
ghost use Rattle.runner_loop.specs.Steps.{AtWork, configured, due_with, rule_or_stop, step_in};

mod one_tape;

use machine::{Head, Span};
use runner_answer::Stop;
use runner_input::put_input;
use runner_rules::{Due, Known, Rules, rules_of};
use runner_tapes::{Heads, Symbols, blank_tapes, half, moved, scanned, start, write};

// Where a machine stands: the place of its state's name, or none where it has no start; and its heads.
#[derive(Clone, Copy)]
pub struct Standing {
    pub state: Span,
    pub heads: Heads,
}

// How a run ended: its stop, its own steps, and where the machine stands.
#[derive(Clone, Copy)]
pub struct Ended {
    pub stop: Stop,
    pub steps: u64,
    pub last: Standing,
}

// The start of a machine that was read, on tapes that are blank: its heads at position 0, its input on the first tape from there
// on.
pub fn begin_on_blanks(text: &[u8], head: Head, cells: &mut [u32]) -> Standing
    requires text { admitted text.now ≡ true }
    requires head { head ≡ head_of (machine_in text.now) }
    requires fit { Fit (content_of_text text.now) (length cells.old) }
    requires blank { cells.old ≡ blank_tapes (half (length cells.old) head.tapes) head.tapes head.blank cells.old }
    ensures start { configuration_of text.now head.tapes result cells.new ≡ initial (content_of_text text.now) cells.old }
    ensures work { AtWork text.now head.tapes (length cells.old) result }
{
    let half = half(cells.len(), head.tapes);
    put_input(text, head.input, cells, half as usize);
    Standing {
        state: head.start,
        heads: start(half, head.tapes),
    }
}

// The start of a machine that was read, whatever the cells hold.
pub fn begin(text: &[u8], head: Head, cells: &mut [u32]) -> Standing
    requires text { admitted text.now ≡ true }
    requires head { head ≡ head_of (machine_in text.now) }
    requires fit { Fit (content_of_text text.now) (length cells.old) }
    ensures start { configuration_of text.now head.tapes result cells.new ≡ initial (content_of_text text.now) cells.old }
    ensures work { AtWork text.now head.tapes (length cells.old) result }
{
    blank_tapes(cells, head.tapes, head.blank);
    begin_on_blanks(text, head, cells)
}

// The rule that is due, by the word at which its record begins, if a step is left; or why there is none. The tests come in the
// order of the stops.
fn rule_due(rules: &Rules, known: Known, symbols: Symbols, left: u64) -> Result<usize, Stop>
    requires rules { RulesOf rules.now }
    requires known { Knows rules.now known.name known }
    ensures due { rule_or_stop rules.now result
        ≡ due_with (due_in (content_of_text rules.now.text.now) (characters_at rules.now.text.now known.name)
        (symbols_of rules.now.tapes symbols)) left }
    ensures rule { IfOk result (λ rule. RecordOf rules.now (record_at rules.now rule)) }
{
    let rule = match rules.due_known(known, symbols) {
        Due::Halted => return Err(Stop::Halted),
        Due::Stuck => return Err(Stop::Stuck),
        Due::Applies(rule) => rule,
    };
    if left == 0 {
        return Err(Stop::Spent);
    }
    Ok(rule)
}

// A step, if a rule is due and no head would leave its tape; or why there is none.
fn step(
    rules: &Rules,
    cells: &mut [u32],
    half: u64,
    at: Standing,
    known: Known,
    left: u64,
) -> Result<Standing, Stop>
    requires rules { RulesOf rules.now }
    requires heads { Stands rules.now.tapes half at.heads }
    requires room { tape_cells half rules.now.tapes ≤ length cells.old }
    requires known { Knows rules.now at.state known }
    ensures step { step_in rules.now result cells.new
        ≡ step_from (content_of_text rules.now.text.now) half left (configured rules.now at cells.old) }
    ensures kept { IfErr result (λ stop. cells.new ≡ cells.old) }
    ensures heads { IfOk result (λ next. Stands rules.now.tapes half next.heads) }
    ensures state { IfOk result (λ next. Named rules.now next.state) }
{
    let symbols = scanned(cells, half, rules.tapes, at.heads);
    let rule = rule_due(rules, known, symbols, left)?;
    let Some(heads) = moved(half, rules.tapes, rules.moves(rule), at.heads) else {
        return Err(Stop::Edge);
    };
    write(cells, half, rules.tapes, at.heads, rules.writes(rule));
    let state = rules.next_state(rule);
    Ok(Standing { state, heads })
}

// The run of a machine from where it stands, with so many steps left. Without a start it is stuck.
pub fn advance(rules: &Rules, cells: &mut [u32], from: Standing, left: u64) -> Ended
    requires rules { RulesOf rules.now }
    requires work { AtWork rules.now.text.now rules.now.tapes (length cells.old) from }
    ensures run { ended_of rules.now.text.now rules.now.tapes result cells.new
        ≡ run_from (content_of_text rules.now.text.now) (half (length cells.old) rules.now.tapes) left
        (configuration_of rules.now.text.now rules.now.tapes from cells.old) }
    ensures work { AtWork rules.now.text.now rules.now.tapes (length cells.old) result.last }
{
    if from.state == Span::NONE {
        return Ended {
            stop: Stop::Stuck,
            steps: 0,
            last: from,
        };
    }
    let half = half(cells.len(), rules.tapes);
    if rules.tapes == 1 {
        return one_tape::advance(rules, cells, half, from, left);
    }
    let mut at = from;
    let mut known = rules.known(from.state);
    let mut rest = left;
    loop {
        match step(rules, cells, half, at, known, rest) {
            Ok(next) => {
                known = rules.known_next(known, next.state);
                at = next;
                rest -= 1;
            }
            Err(stop) => {
                return Ended {
                    stop,
                    steps: left - rest,
                    last: at,
                };
            }
        }
    }
}

// The run of a machine that was read, from its start on blank tapes, with so many steps left. Work is overwritten.
pub fn run_entry(
    head: Head,
    text: &[u8],
    sheet: &[u32],
    work: &mut [u32],
    cells: &mut [u32],
    left: u64,
) -> Ended
    requires read { ReadAs text.now head sheet.now }
    requires fit { Fit (content_of_text text.now) (length cells.old) }
    requires room { work_needed (length text.now) ≤ length work.old }
    requires blank { cells.old ≡ blank_tapes (half (length cells.old) head.tapes) head.tapes head.blank cells.old }
    ensures { ended_of text.now head.tapes result cells.new ≡ run_on (content_of_text text.now) left cells.old }
{
    let from = begin_on_blanks(text, head, cells);
    let rules = rules_of(text, head, sheet, work);
    advance(&rules, cells, from, left)
}
