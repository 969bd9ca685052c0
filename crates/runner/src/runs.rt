// The runs of a batch: each entry, accepted by the readings, is read again into the one sheet, and runs with what the entries
// before it left of the allowance, on the cells as they left them.
ghost use Rattle.std.specs.Prelude.{◌≡◌, ◌*◌, ◌≤◌, true, length};
ghost use Rattle.running.specs.Batch.{lengths_fit, entry_size, entry_texts, readings, runs_of, answers_in};
ghost use Rattle.runner.specs.Entry.{room_of, accepted};

use crate::entries::Entries;
use crate::readings::read_entry;
use runner_answer::words::ENTRY_WORDS;
use runner_blanks::{Blanks, Ran, run_on};

// Runs the entries in their order. Log and sheet are in the end as they were, which is as the last reading left them.
pub(crate) fn runs(
    entries: Entries<'_>,
    allowance: u64,
    work: &mut [u32],
    log: &mut [u32],
    sheet: &mut [u32],
    cells: &mut [u32],
    answers: &mut [u64],
)
    requires fit { lengths_fit entries.lengths.now (length entries.texts.now) ≡ true }
    requires room { entry_size * length entries.lengths.now ≤ length answers.old }
    requires read { readings (room_of (length work.old) (length cells.old)) 0
        (entry_texts entries.lengths.now entries.texts.now) log.old sheet.old ≡ accepted log.old sheet.old }
    ensures log { log.new ≡ log.old }
    ensures sheet { sheet.new ≡ sheet.old }
    ensures ran { let r = runs_of allowance (entry_texts entries.entry.lengths.now entries.entry.texts.now) cells.old in
        (cells.new ≡ r.cells)
        × (answers.new ≡ answers_in r.answers answers.old) }
    ensures work { length entries.entry.lengths.now ≡ 0 → work.new ≡ work.old }
{
    let Entries { texts, lengths } = entries;
    let mut left = allowance;
    let mut known = Blanks::NONE;
    let mut rest = texts;
    for (i, length) in lengths.iter().enumerate() {
        let (text, behind) = rest.split_at(*length as usize);
        let Ok(head) = read_entry(text, work, log, sheet, cells.len()) else {
            unreachable!()
        };
        let Ran { ended, blanks } = run_on(head, text, sheet, work, cells, left, known);
        answers[ENTRY_WORDS * i] = ended.stop.number();
        answers[ENTRY_WORDS * i + 1] = ended.steps;
        left -= ended.steps;
        known = blanks;
        rest = behind;
    }
}
