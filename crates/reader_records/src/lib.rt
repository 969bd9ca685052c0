// Reading a description with a log of diagnostic records.
#![tactic(auto)]

ghost use Rattle.std.specs.Prelude.{◌≡◌, true, length, IfSome};
ghost use Rattle.language.specs.Outcome.{leaves_work_number, read_given};
ghost use Rattle.reader_answer.specs.Answer.{read_in, leaves_work};
ghost use Rattle.reader_steps.specs.Records.{read_records};
ghost use Rattle.reader_steps.specs.Opens.{Reports, reported};

use diag::Diagnostic;
use diag_search::Search;
use reader_answer::{Answer, Refusal, words};

// The calls below take the four slices one by one, as the C interface lends them.

// The log of an admitted text: the diagnostics of the search, sorted, and unused records behind them.
fn report(text: &[u8], work: &mut [u32], log: &mut [Diagnostic], found: Option<Search>)
    requires { IfSome found (Reports text.now work.old (length log.old)) }
    ensures { log.new ≡ reported text.now work.old found (length log.old) }
{
    diag_records::clear(log);
    if let Some(search) = found {
        diag_gather::gather(text, work, search, log, search.errors);
        diag_records::sort(log, search.errors, work);
    }
}

// Reads a text: answers its machine's head, the sheet filled; the number of its diagnostics, which the log holds; or a refusal.
pub fn read(
    text: &[u8],
    work: &mut [u32],
    log: &mut [Diagnostic],
    sheet: &mut [u32],
) -> Result<Answer, Refusal>
    ensures { (read_in result log.new sheet.new ≡ read_records text.now (length work.old) log.old sheet.old)
        × (leaves_work result ≡ true → work.new ≡ work.old) }
{
    let opened = reader_steps::open(text, work, log.len(), sheet)?;
    report(text, work, log, opened.found);
    opened.answer
}

// Reads a text for callers in other languages: the answer in 36 words, and its number.
#[unsafe(no_mangle)]
pub extern "C" fn pevzoncs_read_records(
    text: &[u8],
    work: &mut [u32],
    log: &mut [Diagnostic],
    sheet: &mut [u32],
    answer: &mut [u32],
) -> u32
    ensures { ((result, answer.new, log.new, sheet.new)
        ≡ read_given (read_records text.now (length work.old) log.old sheet.old) answer.old)
        × (leaves_work_number result ≡ true → work.new ≡ work.old) }
{
    words::give(&words::answer_words(read(text, work, log, sheet)), answer)
}
