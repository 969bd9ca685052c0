// The readings of a batch: each entry is read and tested, up to the first that is refused.
ghost use Rattle.std.specs.Prelude.{◌≡◌, true, length, IfOk};
ghost use Rattle.running.specs.Batch.{lengths_fit, entry_texts, batch_leaves_work, entry_outcome, readings};
ghost use Rattle.runner.specs.Entry.{Ready, room_of, entry_in, entry_leaves, readings_in, reply_in};

use crate::entries::Entries;
use machine::Head;
use reader_answer::Answer;
use runner_answer::EntryRefusal;

// Reads an entry and tests its machine for so many cells: answers the head, or why the entry is refused.
pub(crate) fn read_entry(
    text: &[u8],
    work: &mut [u32],
    log: &mut [u32],
    sheet: &mut [u32],
    cells: usize,
) -> Result<Head, EntryRefusal>
    ensures outcome { entry_in result log.new sheet.new
        ≡ entry_outcome (room_of (length work.old) cells) text.now log.old sheet.old }
    ensures accepted { IfOk result (λ head. Ready text.now head sheet.new (length work.old) cells) }
    ensures work { entry_leaves result ≡ true → work.new ≡ work.old }
{
    let answer = reader::read(text, work, log, sheet)?;
    let head = match answer {
        Answer::Machine(head) => head,
        Answer::Diagnostics(n) => return Err(EntryRefusal::Diagnostics(n)),
    };
    match runner_fit::unfit(head, sheet, text, cells) {
        Some(unfit) => Err(EntryRefusal::Unfit(unfit)),
        None => Ok(head),
    }
}

// Reads and tests the entries in their order, for so many cells, up to the first that is refused: answers its index and why.
pub(crate) fn readings(
    entries: Entries<'_>,
    work: &mut [u32],
    log: &mut [u32],
    sheet: &mut [u32],
    cells: usize,
) -> Result<(), (usize, EntryRefusal)>
    requires { lengths_fit entries.lengths.now (length entries.texts.now) ≡ true }
    ensures outcome { readings_in result log.new sheet.new ≡ readings (room_of (length work.old) cells) 0
        (entry_texts entries.entry.lengths.now entries.entry.texts.now) log.old sheet.old }
    ensures work { batch_leaves_work entries.entry.lengths.now (reply_in result) ≡ true → work.new ≡ work.old }
{
    let Entries { texts, lengths } = entries;
    let mut rest = texts;
    for (i, length) in lengths.iter().enumerate() {
        let (text, behind) = rest.split_at(*length as usize);
        if let Err(refusal) = read_entry(text, work, log, sheet, cells) {
            return Err((i, refusal));
        }
        rest = behind;
    }
    Ok(())
}
