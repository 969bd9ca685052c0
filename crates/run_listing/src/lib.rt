// What the program `run` prints: a text is read, its machine runs, and the lines of the run are written. Words on standard error
// tell how far a long run is, and what to do about a refusal. Nothing is promised of them, and where they cannot be written the
// run goes on.
#![tactic(auto)]

ghost use Rattle.std.specs.Prelude.{◌≡◌, ◌*◌, ◌+◌, ◌≤◌, length, OnOk};
ghost use Rattle.std.specs.Io.KnownBytes.{Appends};
ghost use Rattle.form_theorems.specs.Read.{ReadAs};
ghost use Rattle.language.specs.Outcome.{work_needed, zeros};
ghost use Rattle.running.specs.Batch.{content_of_text};
ghost use Rattle.emit.specs.Output.{output, appended};
ghost use Rattle.list_lines.specs.Puts.{Puts};
ghost use Rattle.runner_loop.specs.Runs.{ended_of};
ghost use Rattle.runner_loop.specs.Steps.{AtWork};
ghost use Rattle.run_lines.specs.Lines.{ended_lines};
ghost use Rattle.run_lines.specs.Printed.{max_text, lines, text_lines, printed};
ghost use Rattle.run_listing.specs.Outcome.{machine_outcome};

mod hints;

use emit::Output;
use machine::Head;
use reader_answer::{Answer, Refusal};
use run_arguments::{Limits, MAX_CELLS};
use run_slices::run_in_slices;
use runner_fit::unfit;
use runner_loop::Ended;
use std::io::{self, Write};

// The longest text that is taken.
const MAX_TEXT: usize = 65536;

// The words of work that the longest text needs.
const WORK_WORDS: usize = 6 * MAX_TEXT + 6;

// The records of the log.
const LOG_RECORDS: usize = 1024;

// Words of a log of so many records.
const LOG_WORDS: usize = 5 * LOG_RECORDS;

// Words of the sheet.
const SHEET_WORDS: usize = 262144;

// More bytes than are ever printed (crate run_room).
const PRINTED_BYTES: usize = 2163712;

// A text that was read as a machine, with its head and its sheet.
#[derive(Clone, Copy)]
struct Description<'a> {
    text: &'a [u8],
    head: Head,
    sheet: &'a [u32],
}

// The lines of a run that ended.
fn ended(out: &mut Output, machine: &Description<'_>, end: Ended, cells: &[u32])
    requires read { ReadAs machine.now.text.now machine.now.head machine.now.sheet.now }
    requires work { AtWork machine.now.text.now machine.now.head.tapes (length cells.now) end.last }
    ensures { Puts (ended_lines machine.now.text.now (content_of_text machine.now.text.now)
        (ended_of machine.now.text.now machine.now.head.tapes end cells.now)) out.old out.new }
{
    let head = machine.head;
    let half = runner_tapes::half(cells.len(), head.tapes);
    let own = runner_tapes::tape_cells(cells.len(), head.tapes);
    list_lines::bytes_line(out, machine.text);
    run_lines::tapes(out, head.tapes, half);
    run_lines::stop(out, end.stop);
    run_lines::steps(out, end.steps);
    run_lines::nonblank(out, head.blank, &cells[..own]);
    run_lines::state(out, machine.text, end.last.state);
    run_lines::heads_and_tapes(out, half, head.blank, head.tapes, end.last.heads, cells);
}

// The lines of a machine that was read: why it is refused, or its run on cells that hold zeros.
fn described<W: Write>(
    progress: &mut W,
    out: &mut Output,
    machine: &Description<'_>,
    work: &mut [u32],
    cells: &mut [u32],
    steps: u64,
)
    requires read { ReadAs machine.now.text.now machine.now.head machine.now.sheet.now }
    requires room { work_needed (length machine.now.text.now) ≤ length work.old }
    requires fresh { cells.old ≡ zeros (length cells.old) }
    ensures { Puts (lines machine.now.text.now steps (length cells.old) (machine_outcome machine.now.head)) out.old out.new }
{
    let Description { text, head, sheet } = *machine;
    match unfit(head, sheet, text, cells.len()) {
        Some(unfit) => {
            hints::unfit(progress, unfit, machine);
            list_lines::refused(out, unfit.number(), 0);
        }
        None => {
            let end = run_in_slices(progress, text, head, sheet, work, cells, steps);
            ended(out, machine, end, cells);
        }
    }
}

// An array of one value. Its contract gives the length alone, so that no proof writes out the elements.
fn filled<T: Copy, const N: usize>(value: T) -> [T; N]
    ensures { length result ≡ N }
{
    [value; N]
}

// The lines of a text that is not too long, on cells that hold zeros.
fn text_lines<W: Write>(
    progress: &mut W,
    out: &mut Output,
    text: &[u8],
    cells: &mut [u32],
    steps: u64,
)
    requires short { length text.now ≤ max_text }
    requires fresh { cells.old ≡ zeros (length cells.old) }
    ensures { Puts (text_lines text.now steps (length cells.old)) out.old out.new }
{
    let mut work = filled::<u32, WORK_WORDS>(0);
    let mut log = filled::<u32, LOG_WORDS>(0);
    let mut sheet = filled::<u32, SHEET_WORDS>(0);
    match reader::read(text, &mut work, &mut log, &mut sheet) {
        Ok(Answer::Machine(head)) => {
            let machine = Description {
                text,
                head,
                sheet: &sheet,
            };
            described(progress, out, &machine, &mut work, cells, steps);
        }
        Ok(Answer::Diagnostics(n)) => list_lines::diagnosed(out, text, n, &log),
        Err(refusal) => {
            hints::refused(progress, refusal);
            list_lines::refused(out, refusal.number(), refusal.value());
        }
    }
}

// All that is printed for a text, at the front of a row as far as there is room; how many bytes it has. Of more cells than there
// are it takes the most.
fn listed<W: Write>(progress: &mut W, text: &[u8], limits: Limits, row: &mut [u8]) -> usize
    ensures { output row.new result ≡ appended (output row.old 0) (printed text.now limits.steps limits.cells) }
{
    let mut out = Output::new(row);
    if MAX_TEXT < text.len() {
        hints::refused(progress, Refusal::TextTooLong);
        list_lines::refused(&mut out, 1, 0);
        return out.count();
    }
    let mut all = filled::<u32, MAX_CELLS>(0);
    let cells = &mut all[..limits.cells.min(MAX_CELLS)];
    cells.fill(0);
    text_lines(progress, &mut out, text, cells, limits.steps);
    out.count()
}

// Prints what the program prints for a text within some limits, and words on it to `progress`: it fails only where the writer
// does, and where it succeeds, the whole of it was written.
pub fn print<W: Write, P: Write>(
    out: &mut W,
    progress: &mut P,
    text: &[u8],
    limits: Limits,
) -> io::Result<()>
    ensures { OnOk result (Appends (W.contents out.old) (W.contents out.new) (printed text.now limits.steps limits.cells)) }
{
    let mut row = filled::<u8, PRINTED_BYTES>(0);
    let n = listed(progress, text, limits, &mut row);
    out.write_all(&row[..n])
}
