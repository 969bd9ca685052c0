// The run of a machine of one tape, which most are: with one symbol, one direction and one head a step is shorter than by way of
// three fields. The loop is its own: in one with the steps for more tapes there are too few registers for both.
ghost use Rattle.std.specs.Prelude.{◌≡◌, ◌≤◌, length, IfOk, IfErr};
ghost use Rattle.running.specs.Tape.{tape_cells};
ghost use Rattle.running.specs.Run.{step_from, run_from};
ghost use Rattle.running.specs.Batch.{content_of_text};
ghost use Rattle.runner_tapes.specs.Shown.{Stands};
ghost use Rattle.runner_rules.specs.Rules.{RulesOf, Named, Knows};
ghost use Rattle.runner_loop.specs.Runs.{configuration_of, ended_of};
ghost use Rattle.runner_loop.specs.Steps.{configured, step_in};

use crate::{Ended, Standing, rule_due};
use runner_answer::Stop;
use runner_rules::{Known, Rules};
use runner_tapes::{Heads, Symbols, move_head};

// A step, as for up to three tapes.
fn step(
    rules: &Rules,
    cells: &mut [u32],
    half: u64,
    at: Standing,
    known: Known,
    left: u64,
) -> Result<Standing, Stop>
    requires rules { RulesOf rules.now }
    requires tapes { rules.now.tapes ≡ 1 }
    requires heads { Stands rules.now.tapes half at.heads }
    requires room { tape_cells half rules.now.tapes ≤ length cells.old }
    requires known { Knows rules.now at.state known }
    ensures step { step_in rules.now result cells.new
        ≡ step_from (content_of_text rules.now.text.now) half left (configured rules.now at cells.old) }
    ensures kept { IfErr result (λ stop. cells.new ≡ cells.old) }
    ensures heads { IfOk result (λ next. Stands rules.now.tapes half next.heads) }
    ensures state { IfOk result (λ next. Named rules.now next.state) }
{
    let head = at.heads.first;
    let symbols = Symbols {
        first: cells[head as usize],
        second: 0,
        third: 0,
    };
    let rule = rule_due(rules, known, symbols, left)?;
    let Some(first) = move_head(half, rules.direction_on_one_tape(rule), head) else {
        return Err(Stop::Edge);
    };
    cells[head as usize] = rules.symbol_on_one_tape(rule);
    let state = rules.next_state(rule);
    let heads = Heads { first, ..at.heads };
    Ok(Standing { state, heads })
}

// The run of a machine of one tape from where it stands, with so many steps left.
pub(crate) fn advance(
    rules: &Rules,
    cells: &mut [u32],
    half: u64,
    from: Standing,
    left: u64,
) -> Ended
    requires rules { RulesOf rules.now }
    requires tapes { rules.now.tapes ≡ 1 }
    requires heads { Stands rules.now.tapes half from.heads }
    requires room { tape_cells half rules.now.tapes ≤ length cells.old }
    requires state { Named rules.now from.state }
    ensures run { let text = rules.now.text.now in
        let tapes = rules.now.tapes in
        ended_of text tapes result cells.new
        ≡ run_from (content_of_text text) half left (configuration_of text tapes from cells.old) }
    ensures heads { Stands rules.now.tapes half result.last.heads }
    ensures state { Named rules.now result.last.state }
{
    let mut at = from;
    let mut known = rules.known(at.state);
    let mut rest = left;
    loop {
        match step(rules, cells, half, at, known, rest) {
            Ok(next) => {
                known = rules.known_next(known, next.state);
                at = next;
                rest -= 1;
            }
            Err(stop) => {
                return Ended {
                    stop,
                    steps: left - rest,
                    last: at,
                };
            }
        }
    }
}
