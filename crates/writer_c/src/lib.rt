// The writing call for callers in other languages: writer's call, exported from a static library.
#![tactic(auto)]

ghost use Rattle.std.specs.Prelude.{true, ◌≡◌, length};
ghost use Rattle.language.specs.Outcome.{leaves_work_number, write_outcome, write_given};

// Writes the plain form of a text: the answer in 36 words, and its number.
#[unsafe(no_mangle)]
pub extern "C" fn pevzoncs_write(
    text: &[u8],
    work: &mut [u32],
    log: &mut [u32],
    sheet: &mut [u32],
    output: &mut [u8],
    answer: &mut [u32],
) -> u32
    ensures { ((result, answer.new, log.new, sheet.new, output.new)
        ≡ write_given (write_outcome text.now (length work.old) log.old sheet.old output.old) answer.old)
        × (leaves_work_number result ≡ true → work.new ≡ work.old) }
{
    writer::pevzoncs_write(text, work, log, sheet, output, answer)
}
