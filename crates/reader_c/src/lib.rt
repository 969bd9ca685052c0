// The reading call for callers in other languages: reader's call, exported from a static library.
#![tactic(auto)]

ghost use Rattle.std.specs.Prelude.{◌≡◌, true, length};
ghost use Rattle.language.specs.Outcome.{leaves_work_number, read_outcome, read_given};

// Reads a text: the answer in 36 words, and its number.
#[unsafe(no_mangle)]
pub extern "C" fn pevzoncs_read(
    text: &[u8],
    work: &mut [u32],
    log: &mut [u32],
    sheet: &mut [u32],
    answer: &mut [u32],
) -> u32
    ensures { ((result, answer.new, log.new, sheet.new)
        ≡ read_given (read_outcome text.now (length work.old) log.old sheet.old) answer.old)
        × (leaves_work_number result ≡ true → work.new ≡ work.old) }
{
    reader::pevzoncs_read(text, work, log, sheet, answer)
}
