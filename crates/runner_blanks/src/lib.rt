// The cells of a batch between its runs. A run changes no cell that is farther from position 0 than it does steps, but for its
// input: so the next entry, if it has as many tapes and the same blank, need not clear the others.
#![tactic(auto)]

ghost use Rattle.std.specs.Prelude.{◌≡◌, ◌≤◌, ◌+◌, ◌-◌, ◌++◌, ◌&&◌, eqb, length, take, drop, replicate};
ghost use Rattle.lexer.specs.Words.{work_needed};
ghost use Rattle.language.specs.Agreement.{string_at};
ghost use Rattle.form_theorems.specs.Read.{ReadAs};
ghost use Rattle.running.specs.Tape.{half, blank_tapes};
ghost use Rattle.running.specs.Run.{run_on};
ghost use Rattle.running.specs.Fit.{Fit};
ghost use Rattle.running.specs.Batch.{content_of_text};
ghost use Rattle.runner_loop.specs.Runs.{ended_of};
ghost use Rattle.runner_blanks.specs.Known.{BlankBeyond};

use machine::Head;
use runner_input::input_length;
use runner_loop::Ended;
use runner_tapes::{blank_tapes, half};

// What is known of cells: those of so many tapes that stand at least `reach` places from position 0 hold a blank.
#[derive(Clone, Copy)]
pub struct Blanks {
    pub tapes: u8,
    pub blank: u32,
    pub reach: u64,
}

impl Blanks {
    // Of cells that are lent nothing is known.
    pub const NONE: Blanks = Blanks {
        tapes: 0,
        blank: 0,
        reach: 0,
    };

    // Whether it is of so many tapes and such a blank.
    fn are_of(&self, tapes: u8, blank: u32) -> bool
        ensures { result ≡ (eqb self.now.tapes tapes && eqb self.now.blank blank) }
    {
        self.tapes == tapes && self.blank == blank
    }
}

// How a run ended, and what is known of the cells behind it.
#[derive(Clone, Copy)]
pub struct Ran {
    pub ended: Ended,
    pub blanks: Blanks,
}

// Makes the cells from one to before another blank.
fn blank_part(cells: &mut [u32], from: usize, to: usize, blank: u32)
    requires { (from ≤ to)
        × (to ≤ length cells.old) }
    ensures { cells.new ≡ take from cells.old ++ (replicate (to - from) blank ++ drop to cells.old) }
{
    cells[from..to].fill(blank);
}

// Makes the cells of the tapes blank of which it is not known that they are.
fn blank_near(cells: &mut [u32], known: Blanks)
    requires { BlankBeyond known cells.old }
    ensures { cells.new ≡ blank_tapes (half (length cells.old) known.tapes) known.tapes known.blank cells.old }
{
    let half = half(cells.len(), known.tapes) as usize;
    let reach = half.min(known.reach as usize);
    for tape in 0..usize::from(known.tapes) {
        let middle = (2 * tape + 1) * half;
        blank_part(cells, middle - reach, middle + reach, known.blank);
    }
}

// Makes the cells of the tapes blank.
fn clear(cells: &mut [u32], tapes: u8, blank: u32, known: Blanks)
    requires { BlankBeyond known cells.old }
    ensures { cells.new ≡ blank_tapes (half (length cells.old) tapes) tapes blank cells.old }
{
    if known.are_of(tapes, blank) {
        blank_near(cells, known);
    } else {
        blank_tapes(cells, tapes, blank);
    }
}

// What is known behind a run of so many steps.
fn behind(head: Head, text: &[u8], steps: u64) -> Blanks
    ensures tapes { result.tapes ≡ head.tapes }
    ensures blank { result.blank ≡ head.blank }
    ensures steps { steps ≤ result.reach }
    ensures input { length (string_at text.now head.input) ≤ result.reach }
{
    let input = input_length(text, head.input) as u64;
    Blanks {
        tapes: head.tapes,
        blank: head.blank,
        reach: steps.max(input),
    }
}

// The run of a machine that was read, from its start, on all cells lent, with so many steps left. Work is overwritten.
pub fn run_on(
    head: Head,
    text: &[u8],
    sheet: &[u32],
    work: &mut [u32],
    cells: &mut [u32],
    left: u64,
    known: Blanks,
) -> Ran
    requires read { ReadAs text.now head sheet.now }
    requires fit { Fit (content_of_text text.now) (length cells.old) }
    requires room { work_needed (length text.now) ≤ length work.old }
    requires known { BlankBeyond known cells.old }
    ensures ended { ended_of text.now head.tapes result.ended cells.new ≡ run_on (content_of_text text.now) left cells.old }
    ensures known { BlankBeyond result.blanks cells.new }
{
    clear(cells, head.tapes, head.blank, known);
    let ended = runner_loop::run_entry(head, text, sheet, work, cells, left);
    Ran {
        ended,
        blanks: behind(head, text, ended.steps),
    }
}
