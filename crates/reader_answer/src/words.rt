// An answer in words: the reply's number, its value and the head.
ghost use Rattle.std.specs.Prelude.{◌≡◌, take, drop, get_or};
ghost use Rattle.language.specs.Layout.{decoder_words, head_words};
ghost use Rattle.language.specs.Outcome.{reply_number, reply_value, reply_head, words_of, reply_words, at_front};
ghost use Rattle.reader_answer.specs.Answer.{reply_in};
ghost use Rattle.reader_answer.specs.Front.{front_put};

use crate::{Answer, Refusal};
use machine::{Decoder, Head};

// The number that says that diagnostics are counted.
pub const DIAGNOSTICS: u32 = 0xffff_ffff;
// Words of an answer, and of the head in it: sizes, and no kinds.
pub const ANSWER_WORDS: usize = 36;

pub const HEAD_WORDS: usize = 33;

// A decoder: the number of its case; and the symbol that is counted, the number of the order of bits, or 0.
fn decoder_words(d: Decoder) -> [u32; 2]
    ensures { result ≡ decoder_words d }
{
    match d {
        Decoder::Word => [0, 0],
        Decoder::Unary(symbol) => [1, symbol],
        Decoder::Binary(order) => [2, order as u32],
    }
}

// What stands before the places of the source: decoder, name, input, kind, tapes, blank, what is declared, and where the machine
// starts.
fn front_words(head: Head) -> [u32; 16]
    ensures { result ≡ take 16 (head_words head) }
{
    let declared = head.declared;
    let [tag, value] = decoder_words(head.output);
    [
        tag,
        value,
        head.name.start,
        head.name.end,
        head.input.start,
        head.input.end,
        u32::from(head.kind),
        u32::from(head.tapes),
        head.blank,
        u32::from(declared.states),
        u32::from(declared.input_alphabet),
        u32::from(declared.tape_alphabet),
        u32::from(declared.start),
        u32::from(declared.blank),
        head.start.start,
        head.start.end,
    ]
}

// The places of the source, and then how many members each section has.
fn back_words(head: Head) -> [u32; 17]
    ensures { result ≡ drop 16 (head_words head) }
{
    let Head { map, counts, .. } = head;
    [
        map.kind.start,
        map.kind.end,
        map.input.start,
        map.input.end,
        map.tapes.start,
        map.tapes.end,
        map.start.start,
        map.start.end,
        map.states.start,
        map.states.end,
        counts.states,
        counts.sigma,
        counts.gamma,
        counts.finals,
        counts.header,
        counts.trailing,
        counts.rules,
    ]
}

// A head, in the order of the definition.
fn head_words(head: Head) -> [u32; HEAD_WORDS]
    ensures { result ≡ head_words head }
{
    let mut words = [0; HEAD_WORDS];
    words[..16].copy_from_slice(&front_words(head));
    words[16..].copy_from_slice(&back_words(head));
    words
}

// The number of an answer: the first column of paper 01's table, which no derive gives, since the cases stand in two enums.
pub(crate) fn answer_number(answer: Result<Answer, Refusal>) -> u32
    ensures { result ≡ reply_number (reply_in answer) }
{
    match answer {
        Ok(Answer::Machine(_)) => 0,
        Ok(Answer::Diagnostics(_)) => DIAGNOSTICS,
        Err(refusal) => refusal.number(),
    }
}

// The value of an answer: the second column of paper 01's table.
pub(crate) fn answer_value(answer: Result<Answer, Refusal>) -> u64
    ensures { result ≡ reply_value (reply_in answer) }
{
    match answer {
        Ok(Answer::Machine(_)) => 0,
        Ok(Answer::Diagnostics(n)) => n as u64,
        Err(refusal) => refusal.value(),
    }
}

// The head of an answer in words, zero where there is none.
fn answer_head(answer: Result<Answer, Refusal>) -> [u32; HEAD_WORDS]
    ensures { result ≡ reply_head (reply_in answer) }
{
    match answer {
        Ok(Answer::Machine(head)) => head_words(head),
        Ok(Answer::Diagnostics(_)) | Err(_) => [0; HEAD_WORDS],
    }
}

// The answer of any call in words: its number; its value, low word first; and its head.
pub fn words_of(number: u32, value: u64, head: &[u32; HEAD_WORDS]) -> [u32; ANSWER_WORDS]
    ensures { result ≡ words_of number value head.now }
{
    let mut words = [0; ANSWER_WORDS];
    words[0] = number;
    words[1] = (value % (1 << 32)) as u32;
    words[2] = (value >> 32) as u32;
    words[3..].copy_from_slice(head);
    words
}

// The answer of a reading call in words.
pub fn answer_words(answer: Result<Answer, Refusal>) -> [u32; ANSWER_WORDS]
    ensures { result ≡ reply_words (reply_in answer) }
{
    let head = answer_head(answer);
    words_of(answer_number(answer), answer_value(answer), &head)
}

// Words at the front of a row that is lent for them, where it has room for them all.
pub fn put_front<T: Copy, const N: usize>(words: &[T; N], row: &mut [T])
    ensures { row.new ≡ front_put N words.now row.old }
{
    if let Some(front) = row.first_chunk_mut() {
        *front = *words;
    }
}

// The words of an answer at the front of a row that is lent for them, where it has room for them all. Answers the number, which is
// the first of them.
pub fn give(words: &[u32; ANSWER_WORDS], row: &mut [u32]) -> u32
    ensures { (result ≡ get_or words.now 0 0)
        × (row.new ≡ at_front words.now row.old) }
{
    put_front(words, row);
    words[0]
}
