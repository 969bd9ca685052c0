// The writing call with a log of records for callers in other languages: writer_records's call, exported from a static library.
#![tactic(auto)]

ghost use Rattle.std.specs.Prelude.{◌≡◌, true, length};
ghost use Rattle.language.specs.Outcome.{leaves_work_number, write_given};
ghost use Rattle.writer_records.specs.Records.{write_records};

use diag::Diagnostic;

// Writes the plain form of a text: the answer in 36 words, and its number.
#[unsafe(no_mangle)]
pub extern "C" fn pevzoncs_write_records(
    text: &[u8],
    work: &mut [u32],
    log: &mut [Diagnostic],
    sheet: &mut [u32],
    output: &mut [u8],
    answer: &mut [u32],
) -> u32
    ensures { ((result, answer.new, log.new, sheet.new, output.new)
        ≡ write_given (write_records text.now (length work.old) log.old sheet.old output.old) answer.old)
        × (leaves_work_number result ≡ true → work.new ≡ work.old) }
{
    writer_records::pevzoncs_write_records(text, work, log, sheet, output, answer)
}
