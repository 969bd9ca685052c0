// Reading a description: what a call answers.
#![tactic(auto)]

ghost use Rattle.std.specs.Prelude.{◌≡◌, true, false, length, None};
ghost use Rattle.language.specs.Outcome.{leaves_work_number, refusal_of, read_outcome, read_given};
ghost use Rattle.reader_answer.specs.Answer.{read_in, leaves_work};

use reader_answer::{Answer, Refusal, words};

pub mod sections;
pub mod written;

// The calls below take the four slices one by one, as the C interface lends them.

// Reads a text that is not refused.
fn admitted(
    text: &[u8],
    work: &mut [u32],
    log: &mut [u32],
    sheet: &mut [u32],
) -> Result<Answer, Refusal>
    requires { refusal_of text.now (length work.old) ≡ None }
    ensures { (read_in result log.new sheet.new ≡ read_outcome text.now (length work.old) log.old sheet.old)
        × (leaves_work result ≡ false) }
{
    let count = lexer::tokenize(text, work);
    let a = assembler::assemble(text, work, count, log);
    let faulty = 0 < a.errors;
    if faulty {
        sheet.fill(0);
        return diag_report::report(log, a.errors, work);
    }
    log.fill(0);
    written::machine(text, work, count, &a, sheet)
}

// Reads a text: answers its machine's head, the sheet filled; the number of its diagnostics, which the log holds; or a refusal.
pub fn read(
    text: &[u8],
    work: &mut [u32],
    log: &mut [u32],
    sheet: &mut [u32],
) -> Result<Answer, Refusal>
    ensures { (read_in result log.new sheet.new ≡ read_outcome text.now (length work.old) log.old sheet.old)
        × (leaves_work result ≡ true → work.new ≡ work.old) }
{
    reader_admission::check(text, work.len())?;
    admitted(text, work, log, sheet)
}

// Reads a text for callers in other languages: the answer in 36 words, and its number.
#[unsafe(no_mangle)]
pub extern "C" fn pevzoncs_read(
    text: &[u8],
    work: &mut [u32],
    log: &mut [u32],
    sheet: &mut [u32],
    answer: &mut [u32],
) -> u32
    ensures { ((result, answer.new, log.new, sheet.new)
        ≡ read_given (read_outcome text.now (length work.old) log.old sheet.old) answer.old)
        × (leaves_work_number result ≡ true → work.new ≡ work.old) }
{
    words::give(&words::answer_words(read(text, work, log, sheet)), answer)
}
