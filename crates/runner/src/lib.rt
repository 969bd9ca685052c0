// Running a batch of machines: every entry is read and tested first; then all run, in their order, on one allowance of steps.
#![tactic(auto)]

ghost use Rattle.std.specs.Prelude.{◌≡◌, true, length};
ghost use Rattle.running.specs.Batch.{batch_outcome, batch_leaves_work};
ghost use Rattle.runner_answer.specs.Answer.{batch_reply_in, batch_in};
ghost use Rattle.runner_answer.specs.Given.{lent, batch_given};

use crate::entries::Entries;
use crate::readings::readings;
use crate::runs::runs;
use reader_answer::words::put_front;
use runner_answer::BatchRefusal;
use runner_answer::words::{batch_number, batch_words};

mod entries;
mod readings;
mod runs;

// Runs a batch: texts back to back, the length of each, and the steps allowed to all. The answers begin with two words for each
// entry, its stop and its own steps; or else the first refused entry refuses the batch, before any step. The slices are taken one
// by one, as the C interface lends them.
pub fn batch(
    texts: &[u8],
    lengths: &[u32],
    allowance: u64,
    work: &mut [u32],
    log: &mut [u32],
    sheet: &mut [u32],
    cells: &mut [u32],
    answers: &mut [u64],
) -> Result<(), BatchRefusal>
    ensures { (batch_in result log.new sheet.new cells.new answers.new
        ≡ batch_outcome (lent texts.now lengths.now allowance (length work.old) log.old sheet.old cells.old answers.old))
        × (batch_leaves_work lengths.now (batch_reply_in result) ≡ true → work.new ≡ work.old) }
{
    let entries = Entries { texts, lengths };
    if !entries.enough(answers.len()) {
        return Err(BatchRefusal::NotLent);
    }
    if let Err((i, refusal)) = readings(entries, work, log, sheet, cells.len()) {
        return Err(BatchRefusal::Entry(i, refusal));
    }
    runs(entries, allowance, work, log, sheet, cells, answers);
    Ok(())
}

// Runs a batch for callers in other languages: the answer in three words of 64 bits, and its number.
#[unsafe(no_mangle)]
pub extern "C" fn pevzoncs_batch(
    texts: &[u8],
    lengths: &[u32],
    allowance: u64,
    work: &mut [u32],
    log: &mut [u32],
    sheet: &mut [u32],
    cells: &mut [u32],
    answers: &mut [u64],
    answer: &mut [u64],
) -> u32
    ensures { let l = lent texts.now lengths.now allowance (length work.old) log.old sheet.old cells.old answers.old in
        let o = batch_outcome l in
        ((result, answer.new, log.new, sheet.new, cells.new, answers.new) ≡ batch_given o answer.old)
        × (batch_leaves_work lengths.now o.reply ≡ true → work.new ≡ work.old) }
{
    let ran = batch(texts, lengths, allowance, work, log, sheet, cells, answers);
    put_front(&batch_words(ran), answer);
    batch_number(ran)
}
