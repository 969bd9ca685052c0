// What a text and a length of work are refused for before anything is read.
#![tactic(auto)]

ghost use Rattle.std.specs.Prelude.{◌≡◌};
ghost use Rattle.language.specs.Outcome.{refusal_of};
ghost use Rattle.reader_admission.specs.Admission.{refused_by};

use lexer::{MAX_BYTES, WORK_WORDS};
use reader_answer::Refusal;

// Whether a text is admitted; if not, the first of the rows 1 to 4 that holds.
#[tactic(auto, using(crate::proofs::Admissions::rows))]
pub fn check(text: &[u8], work: usize) -> Result<(), Refusal>
    ensures { refused_by result ≡ refusal_of text.now work }
{
    let n = text.len();
    if MAX_BYTES < n {
        return Err(Refusal::TextTooLong);
    }
    if work < WORK_WORDS * n + WORK_WORDS {
        return Err(Refusal::WorkTooShort);
    }
    if chars::plain_up_to(text) == n {
        return Ok(());
    }
    let valid = chars::valid_up_to(text);
    if valid < n {
        return Err(Refusal::InvalidUtf8(valid));
    }
    match chars::first_outside(text) {
        Some(at) => Err(Refusal::OutsideSet(at)),
        None => Ok(()),
    }
}
