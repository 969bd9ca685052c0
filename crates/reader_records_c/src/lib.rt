// The reading call with a log of records for callers in other languages: reader_records's call, exported from a static library.
#![tactic(auto)]

ghost use Rattle.std.specs.Prelude.{◌≡◌, true, length};
ghost use Rattle.language.specs.Outcome.{leaves_work_number, read_given};
ghost use Rattle.reader_steps.specs.Records.{read_records};

use diag::Diagnostic;

// Reads a text: the answer in 36 words, and its number.
#[unsafe(no_mangle)]
pub extern "C" fn pevzoncs_read_records(
    text: &[u8],
    work: &mut [u32],
    log: &mut [Diagnostic],
    sheet: &mut [u32],
    answer: &mut [u32],
) -> u32
    ensures { ((result, answer.new, log.new, sheet.new)
        ≡ read_given (read_records text.now (length work.old) log.old sheet.old) answer.old)
        × (leaves_work_number result ≡ true → work.new ≡ work.old) }
{
    reader_records::pevzoncs_read_records(text, work, log, sheet, answer)
}
