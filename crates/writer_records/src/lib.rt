// Writing the plain form of a description, with a log of records.
#![tactic(auto)]

ghost use Rattle.std.specs.Prelude.{◌≡◌, true, length};
ghost use Rattle.language.specs.Outcome.{leaves_work_number, write_given};
ghost use Rattle.writer_answer.specs.Answer.{write_reply_in, write_in, leaves_work};
ghost use Rattle.writer_records.specs.Records.{write_records};

use diag::Diagnostic;
use reader_answer::words;
use writer_answer::words::answer_words;
use writer_answer::{WriteAnswer, WriteRefusal};

// Writes the plain form of a text: answers its length; or the number of diagnostics, which the log holds; or a refusal.
// This is writer's `write` over `reader_records::read`: the C interface has both logs, and one function would take what reads.
pub fn write(
    text: &[u8],
    work: &mut [u32],
    log: &mut [Diagnostic],
    sheet: &mut [u32],
    output: &mut [u8],
) -> Result<WriteAnswer, WriteRefusal>
    ensures { (write_in result log.new sheet.new output.new
        ≡ write_records text.now (length work.old) log.old sheet.old output.old)
        × (leaves_work (write_reply_in result) ≡ true → work.new ≡ work.old) }
{
    let answer = reader_records::read(text, work, log, sheet);
    writer_form::write_answer(answer, text, sheet, output)
}

// Writes the plain form of a text for callers in other languages: the answer in 36 words, and its number.
#[unsafe(no_mangle)]
pub extern "C" fn pevzoncs_write_records(
    text: &[u8],
    work: &mut [u32],
    log: &mut [Diagnostic],
    sheet: &mut [u32],
    output: &mut [u8],
    answer: &mut [u32],
) -> u32
    ensures { ((result, answer.new, log.new, sheet.new, output.new)
        ≡ write_given (write_records text.now (length work.old) log.old sheet.old output.old) answer.old)
        × (leaves_work_number result ≡ true → work.new ≡ work.old) }
{
    words::give(&answer_words(write(text, work, log, sheet, output)), answer)
}
