// Writing the plain form of a description: a text is read, and the form of its machine is put at the front of a lent output.
#![tactic(auto)]

ghost use Rattle.std.specs.Prelude.{true, ◌≡◌, length};
ghost use Rattle.language.specs.Outcome.{leaves_work_number, write_outcome, write_given};
ghost use Rattle.writer_answer.specs.Answer.{write_reply_in, write_in, leaves_work};

use reader_answer::words;
use writer_answer::words::answer_words;
use writer_answer::{WriteAnswer, WriteRefusal};

// Writes the plain form of a text: answers its length; or the number of diagnostics, which the log holds; or a refusal.
pub fn write(
    text: &[u8],
    work: &mut [u32],
    log: &mut [u32],
    sheet: &mut [u32],
    output: &mut [u8],
) -> Result<WriteAnswer, WriteRefusal>
    ensures { (write_in result log.new sheet.new output.new
        ≡ write_outcome text.now (length work.old) log.old sheet.old output.old)
        × (leaves_work (write_reply_in result) ≡ true → work.new ≡ work.old) }
{
    let answer = reader::read(text, work, log, sheet);
    writer_form::write_answer(answer, text, sheet, output)
}

// Writes the plain form of a text for callers in other languages: the answer in 36 words, and its number.
#[unsafe(no_mangle)]
pub extern "C" fn pevzoncs_write(
    text: &[u8],
    work: &mut [u32],
    log: &mut [u32],
    sheet: &mut [u32],
    output: &mut [u8],
    answer: &mut [u32],
) -> u32
    ensures { ((result, answer.new, log.new, sheet.new, output.new)
        ≡ write_given (write_outcome text.now (length work.old) log.old sheet.old output.old) answer.old)
        × (leaves_work_number result ≡ true → work.new ≡ work.old) }
{
    words::give(&answer_words(write(text, work, log, sheet, output)), answer)
}
