// A machine's run from its start, cut into slices, so that somebody who waits for a long one is told how far it is. The slices
// make up the run. A line of progress that cannot be written is left out, and the run goes on.
#![tactic(auto)]

ghost use Rattle.std.specs.Prelude.{◌≡◌, ◌≤◌, length};
ghost use Rattle.language.specs.Outcome.{work_needed};
ghost use Rattle.form_theorems.specs.Read.{ReadAs};
ghost use Rattle.running.specs.Tape.{half};
ghost use Rattle.running.specs.Run.{run_from, run_on};
ghost use Rattle.running.specs.Fit.{Fit};
ghost use Rattle.running.specs.Batch.{content_of_text};
ghost use Rattle.runner_rules.specs.Rules.{RulesOf};
ghost use Rattle.runner_loop.specs.Runs.{configuration_of, ended_of};
ghost use Rattle.runner_loop.specs.Steps.{AtWork};

use machine::Head;
use runner_answer::Stop;
use runner_loop::{Ended, Standing, advance, begin};
use runner_rules::{Rules, rules_of};
use std::io::Write;

// The steps of a slice.
const SLICE: u64 = 100_000_000;

// The run of a machine from where it stands, with so many steps left. Behind each slice but the last, the steps done so far are
// written to `progress`.
fn advance_in_slices<W: Write>(
    progress: &mut W,
    rules: &Rules<'_>,
    cells: &mut [u32],
    from: Standing,
    left: u64,
) -> Ended
    requires rules { RulesOf rules.now }
    requires work { AtWork rules.now.text.now rules.now.tapes (length cells.old) from }
    ensures run { let text = rules.now.text.now in
        let tapes = rules.now.tapes in
        ended_of text tapes result cells.new
        ≡ run_from (content_of_text text) (half (length cells.old) tapes) left (configuration_of text tapes from cells.old) }
    ensures work { AtWork rules.now.text.now rules.now.tapes (length cells.old) result.last }
{
    let mut at = from;
    let mut steps = 0;
    let mut rest = left;
    loop {
        let slice = rest.min(SLICE);
        let end = advance(rules, cells, at, slice);
        at = end.last;
        steps += end.steps;
        rest -= slice;
        if end.stop != Stop::Spent || rest == 0 {
            return Ended {
                stop: end.stop,
                steps,
                last: at,
            };
        }
        let _ = writeln!(progress, "steps={steps}");
    }
}

// The run of a machine that was read, from its start, on all cells lent. Work is overwritten.
pub fn run_in_slices<W: Write>(
    progress: &mut W,
    text: &[u8],
    head: Head,
    sheet: &[u32],
    work: &mut [u32],
    cells: &mut [u32],
    left: u64,
) -> Ended
    requires read { ReadAs text.now head sheet.now }
    requires fit { Fit (content_of_text text.now) (length cells.old) }
    requires room { work_needed (length text.now) ≤ length work.old }
    ensures run { ended_of text.now head.tapes result cells.new ≡ run_on (content_of_text text.now) left cells.old }
    ensures work { AtWork text.now head.tapes (length cells.old) result.last }
{
    let from = begin(text, head, cells);
    let rules = rules_of(text, head, sheet, work);
    advance_in_slices(progress, &rules, cells, from, left)
}
