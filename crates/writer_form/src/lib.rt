// The form of a machine that was read, at the front of an output where it fits.
#![tactic(auto)]

ghost use Rattle.std.specs.Prelude.{true, ◌≡◌, List, ℕ};
ghost use Rattle.language.specs.Outcome.{ReadOutcome, form_of, write_form, write_with};
ghost use Rattle.machine.specs.declared.Head.{Head};
ghost use Rattle.reader_answer.specs.declared.Answer.TheVariants.{Machine};
ghost use Rattle.reader_answer.specs.Answer.{read_in, leaves_work as read_leaves};
ghost use Rattle.form_theorems.specs.Read.{ReadAs};
ghost use Rattle.writer_answer.specs.Answer.{write_reply_in, write_in, leaves_work};

use lexer::MAX_BYTES;
use machine::Head;
use reader_answer::{Answer, Refusal};
use writer_answer::{WriteAnswer, WriteRefusal};

// The form of the machine that a text was read as, at the front of the output if it is short enough, and no longer than a text
// may be: row 7, whatever reading left.
fn write_form(
    head: Head,
    text: &[u8],
    sheet: &[u32],
    output: &mut [u8],
) -> Result<WriteAnswer, WriteRefusal>
    requires { ReadAs text.now head sheet.now }
    ensures { (x : ReadOutcome (List ℕ)) → write_in result x.log x.sheet output.new ≡ write_form (form_of text.now) x output.old }
{
    let n = form::plain_form(head, sheet, text, &mut output[..0]);
    let room = output.len().min(MAX_BYTES);
    if room < n {
        return Err(WriteRefusal::OutputTooShort(n as u64));
    }
    let m = form::plain_form(head, sheet, text, &mut output[..n]);
    Ok(WriteAnswer::Written(m))
}

// The answer of a reading call handed on, but for a machine: its form is written.
// The log, which stays as reading left it, plays no part.
pub fn write_answer(
    answer: Result<Answer, Refusal>,
    text: &[u8],
    sheet: &[u32],
    output: &mut [u8],
) -> Result<WriteAnswer, WriteRefusal>
    requires { (h : Head) → answer ≡ Ok (Machine h) → ReadAs text.now h sheet.now }
    ensures outcome { (l : List ℕ) → write_in result l sheet.now output.new
        ≡ write_with (read_in answer l sheet.now) (form_of text.now) output.old }
    ensures touches { leaves_work (write_reply_in result) ≡ true → read_leaves answer ≡ true }
{
    let read = answer?;
    match read {
        Answer::Machine(head) => write_form(head, text, sheet, output),
        Answer::Diagnostics(n) => Ok(WriteAnswer::Diagnostics(n)),
    }
}
