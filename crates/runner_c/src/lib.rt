// Running a batch for callers in other languages: runner's call, exported from a static library.
#![tactic(auto)]

ghost use Rattle.std.specs.Prelude.{◌≡◌, true, length};
ghost use Rattle.running.specs.Batch.{batch_outcome, batch_leaves_work};
ghost use Rattle.runner_answer.specs.Given.{lent, batch_given};

// Runs a batch: the answer in three words of 64 bits, and its number.
#[unsafe(no_mangle)]
pub extern "C" fn pevzoncs_batch(
    texts: &[u8],
    lengths: &[u32],
    allowance: u64,
    work: &mut [u32],
    log: &mut [u32],
    sheet: &mut [u32],
    cells: &mut [u32],
    answers: &mut [u64],
    answer: &mut [u64],
) -> u32
    ensures { let l = lent texts.now lengths.now allowance (length work.old) log.old sheet.old cells.old answers.old in
        let o = batch_outcome l in
        ((result, answer.new, log.new, sheet.new, cells.new, answers.new) ≡ batch_given o answer.old)
        × (batch_leaves_work lengths.now o.reply ≡ true → work.new ≡ work.old) }
{
    runner::pevzoncs_batch(
        texts, lengths, allowance, work, log, sheet, cells, answers, answer,
    )
}
