// An answer of a writing call in words: the reply's number and its value.
ghost use Rattle.std.specs.Prelude.{◌≡◌};
ghost use Rattle.language.specs.Outcome.{write_number, write_value, write_words};
ghost use Rattle.writer_answer.specs.Answer.{write_reply_in};

use crate::{WriteAnswer, WriteRefusal};
use reader_answer::words::{ANSWER_WORDS, DIAGNOSTICS, HEAD_WORDS};

// The number of an answer. One function for this and reader_answer's `answer_number` would need a trait of two `Result`s, to
// share one arm.
fn number(answer: Result<WriteAnswer, WriteRefusal>) -> u32
    ensures { result ≡ write_number (write_reply_in answer) }
{
    match answer {
        Ok(WriteAnswer::Written(_)) => 0,
        Ok(WriteAnswer::Diagnostics(_)) => DIAGNOSTICS,
        Err(refusal) => refusal.number(),
    }
}

// The value of an answer: the form's length, the number of diagnostics, or the refusal's.
fn value(answer: Result<WriteAnswer, WriteRefusal>) -> u64
    ensures { result ≡ write_value (write_reply_in answer) }
{
    match answer {
        Ok(WriteAnswer::Written(n) | WriteAnswer::Diagnostics(n)) => n as u64,
        Err(refusal) => refusal.value(),
    }
}

// The answer of a writing call in words, its head zero.
pub fn answer_words(answer: Result<WriteAnswer, WriteRefusal>) -> [u32; ANSWER_WORDS]
    ensures { result ≡ write_words (write_reply_in answer) }
{
    reader_answer::words::words_of(number(answer), value(answer), &[0; HEAD_WORDS])
}
