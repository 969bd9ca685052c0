// The answer of a batch in words: its number, its value, and the index of the entry that is refused.
ghost use Rattle.std.specs.Prelude.{◌≡◌};
ghost use Rattle.running.specs.Batch.{batch_words};
ghost use Rattle.runner_answer.specs.Answer.{batch_reply_in};
ghost use Rattle.runner_answer.specs.Given.{batch_number};

use crate::BatchRefusal;

// Words of a batch's answer.
pub const BATCH_WORDS: usize = 3;

// Words of an entry's answer.
pub const ENTRY_WORDS: usize = 2;

// The index that says that there is none.
const NO_INDEX: u64 = 0xffff_ffff;

// The number that says that too little was lent.
const NOT_LENT: u32 = 23;

// The number of a batch's answer.
pub fn batch_number(answer: Result<(), BatchRefusal>) -> u32
    ensures { result ≡ batch_number (batch_reply_in answer) }
{
    match answer {
        Ok(()) => 0,
        Err(BatchRefusal::NotLent) => NOT_LENT,
        Err(BatchRefusal::Entry(_, refusal)) => refusal.number(),
    }
}

// The answer of a batch in words.
pub fn batch_words(answer: Result<(), BatchRefusal>) -> [u64; BATCH_WORDS]
    ensures { result ≡ batch_words (batch_reply_in answer) }
{
    let number = u64::from(batch_number(answer));
    match answer {
        Ok(()) | Err(BatchRefusal::NotLent) => [number, 0, NO_INDEX],
        Err(BatchRefusal::Entry(index, refusal)) => [number, refusal.value(), index as u64],
    }
}
