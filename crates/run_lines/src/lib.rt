// The lines that the program `run` prints of a run that ended. Each function appends a piece to an output, as those of crate
// list_lines do: stored where there is room, counted in any case.
#![tactic(auto)]

ghost use Rattle.std.specs.Prelude.{◌≡◌, ◌*◌, ◌≤◌, ◌<◌, length};
ghost use Rattle.language.specs.Plain.{say, each};
ghost use Rattle.lexer.specs.Places.{part};
ghost use Rattle.running.specs.Tape.{tape_cells};
ghost use Rattle.list_lines.specs.Puts.{Puts};
ghost use Rattle.runner_tapes.specs.Shown.{heads_of};
ghost use Rattle.runner_answer.specs.Answer.{stop_in};
ghost use Rattle.run_lines.specs.Lines.{tapes_line, stop_word, stop_line, steps_line, nonblank, nonblank_line, state_line};
ghost use Rattle.run_lines.specs.Lines.{position_of, head_line, from_nonblank, to_nonblank, code, tape_line, tape_lines};

use emit::Output;
use lexer::names::part_of;
use machine::Span;
use runner_answer::Stop;
use runner_tapes::Heads;

// ---- the run

// How many tapes there are, and half of one.
#[tactic(auto, using(list_lines::proofs::Chain::chain), unfolding(crate::specs::Lines::tapes_line))]
pub fn tapes(out: &mut Output, tapes: u8, half: u64)
    ensures { Puts (tapes_line tapes half) out.old out.new }
{
    out.bytes(b"tapes=");
    out.decimal(tapes.into());
    out.bytes(b" half=");
    out.decimal(half);
    out.bytes(b"\n");
}

// The word of a stop.
#[tactic(auto, using(list_lines::proofs::Chain::chain))]
fn stop_word(out: &mut Output, stop: Stop)
    ensures { Puts (say (stop_word (stop_in stop))) out.old out.new }
{
    match stop {
        Stop::Halted => out.bytes(b"halted"),
        Stop::Stuck => out.bytes(b"stuck"),
        Stop::Spent => out.bytes(b"spent"),
        Stop::Edge => out.bytes(b"edge"),
    }
}

// Why the run stopped.
#[tactic(auto, using(list_lines::proofs::Chain::chain), unfolding(crate::specs::Lines::stop_line))]
pub fn stop(out: &mut Output, stop: Stop)
    ensures { Puts (stop_line (stop_in stop)) out.old out.new }
{
    out.bytes(b"stop=");
    stop_word(out, stop);
    out.bytes(b"\n");
}

// Its own steps.
#[tactic(auto, using(list_lines::proofs::Chain::chain), unfolding(crate::specs::Lines::steps_line))]
pub fn steps(out: &mut Output, steps: u64)
    ensures { Puts (steps_line steps) out.old out.new }
{
    out.bytes(b"steps=");
    out.decimal(steps);
    out.bytes(b"\n");
}

// How many cells are not blank.
#[tactic(auto, unfolding(crate::specs::Lines::nonblank))]
fn count_nonblank(cells: &[u32], blank: u32) -> usize
    ensures { result ≡ nonblank blank cells.now }
{
    cells.iter().filter(|c| **c != blank).count()
}

// How many cells of the tapes are not blank, counted by a scan.
#[tactic(auto, using(list_lines::proofs::Chain::chain), unfolding(crate::specs::Lines::nonblank_line))]
pub fn nonblank(out: &mut Output, blank: u32, cells: &[u32])
    ensures { Puts (nonblank_line blank cells.now) out.old out.new }
{
    out.bytes(b"nonblank=");
    out.decimal(count_nonblank(cells, blank) as u64);
    out.bytes(b"\n");
}

// The name of the state: the bytes at its place, none where there is no state.
#[tactic(auto, using(list_lines::proofs::Chain::chain), unfolding(crate::specs::Lines::state_line))]
pub fn state(out: &mut Output, text: &[u8], at: Span)
    ensures { Puts (state_line (part text.now at.start at.end)) out.old out.new }
{
    out.bytes(b"state=");
    out.bytes(part_of(text, at.start as usize, at.end as usize));
    out.bytes(b"\n");
}

// ---- heads and tapes

// The position of an offset on a tape: a minus sign only below zero.
#[tactic(auto, using(list_lines::proofs::Chain::chain), unfolding(crate::specs::Lines::position_of))]
fn position(out: &mut Output, half: u64, offset: u64)
    ensures { Puts (position_of half offset) out.old out.new }
{
    if offset < half {
        out.bytes(b"-");
        out.decimal(half - offset);
    } else {
        out.decimal(offset - half);
    }
}

// Where a head stands.
#[tactic(auto, using(list_lines::proofs::Chain::chain), unfolding(crate::specs::Lines::head_line))]
fn head(out: &mut Output, half: u64, offset: u64)
    ensures { Puts (head_line half offset) out.old out.new }
{
    out.bytes(b"head=");
    position(out, half, offset);
    out.bytes(b"\n");
}

// The cells from the first that is not blank on.
fn from_nonblank(cells: &[u32], blank: u32) -> &[u32]
    ensures { result.now ≡ from_nonblank blank cells.now }
{
    let mut rest = cells;
    while let Some((first, behind)) = rest.split_first() {
        if *first != blank {
            break;
        }
        rest = behind;
    }
    rest
}

// The cells up to the last that is not blank.
fn to_nonblank(cells: &[u32], blank: u32) -> &[u32]
    ensures { result.now ≡ to_nonblank blank cells.now }
{
    let mut rest = cells;
    while let Some((last, before)) = rest.split_last() {
        if *last != blank {
            break;
        }
        rest = before;
    }
    rest
}

// The code of each cell, behind a space.
fn codes(out: &mut Output, cells: &[u32])
    ensures { Puts (each code cells.now) out.old out.new }
{
    for c in cells {
        out.bytes(b" ");
        out.decimal((*c).into());
    }
}

// A tape from its first to its last cell that is not blank: the position of the first, and the codes.
fn tape(out: &mut Output, half: u64, blank: u32, cells: &[u32])
    ensures { Puts (tape_line half blank cells.now) out.old out.new }
{
    let rest = from_nonblank(cells, blank);
    let shown = to_nonblank(rest, blank);
    out.bytes(b"tape=");
    if !shown.is_empty() {
        position(out, half, (cells.len() - rest.len()) as u64);
        codes(out, shown);
    }
    out.bytes(b"\n");
}

// Each head and its tape, tape by tape from the front.
pub fn heads_and_tapes(
    out: &mut Output,
    half: u64,
    blank: u32,
    tapes: u8,
    heads: Heads,
    cells: &[u32],
)
    requires { (tapes ≤ 3)
        × (tape_cells half tapes ≤ length cells.now) }
    ensures { Puts (tape_lines half blank (heads_of tapes heads) cells.now) out.old out.new }
{
    let offsets = [heads.first, heads.second, heads.third];
    let mut rest = cells;
    for offset in &offsets[..tapes as usize] {
        let (own, behind) = rest.split_at(2 * half as usize);
        head(out, half, *offset);
        tape(out, half, blank, own);
        rest = behind;
    }
}
