// The diagnostics of a text in the log: sorted, or refused where it has too few records.
#![tactic(auto)]

ghost use Rattle.std.specs.Prelude.{◌≡◌, List, ℕ, ◌*◌, ◌≤◌, length};
ghost use Rattle.diag.specs.Log.{sort, log_after, logged, append_all};
ghost use Rattle.diag.specs.declared.Diagnostic.{Diagnostic};
ghost use Rattle.reader_answer.specs.Answer.{reply_in};
ghost use Rattle.diag_report.specs.Report.{report_reply};

use diag::DIAGNOSTIC_WORDS;
use reader_answer::{Answer, Refusal};

// The answer to the diagnostics that a log was given, whatever it held, and the log as the
// call leaves it; `scratch` is for the sort.
// `errors` may be more than the log has records for, which row 5 refuses: so no slice of the log stands for it.
pub fn report(log: &mut [u32], errors: usize, scratch: &mut [u32]) -> Result<Answer, Refusal>
    requires { 5 * errors ≤ length scratch.old }
    ensures { (reply_in result ≡ report_reply (length log.old) errors)
        × ((row : List ℕ) (ds : List Diagnostic) → logged log.old errors ≡ append_all (logged row 0) ds
        → log.new ≡ log_after (length log.old) (sort ds)) }
{
    if log.len() / DIAGNOSTIC_WORDS < errors {
        log.fill(0);
        return Err(Refusal::LogTooShort(errors));
    }
    log[DIAGNOSTIC_WORDS * errors..].fill(0);
    diag::sort(log, errors, scratch);
    Ok(Answer::Diagnostics(errors))
}
