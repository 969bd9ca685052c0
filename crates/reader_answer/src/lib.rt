// What a reading call answers.
#![tactic(auto)]

ghost use Rattle.std.specs.Prelude.{◌≡◌};
ghost use Rattle.language.specs.Outcome.{refusal_number, refusal_value};
ghost use Rattle.reader_answer.specs.Answer.{refusal_in};

use machine::Head;

pub mod words;

// What a call that is not refused answers: a machine's head, or the number of diagnostics.
#[derive(Clone, Copy, Debug, PartialEq, Eq)]
pub enum Answer {
    Machine(Head),
    Diagnostics(usize),
}

// Why a call is refused (paper 01, "What a call returns").
#[derive(Clone, Copy, Debug, PartialEq, Eq)]
pub enum Refusal {
    TextTooLong,
    WorkTooShort,
    // The length of the longest UTF-8 beginning.
    InvalidUtf8(usize),
    // The offset of the first character outside the set.
    OutsideSet(usize),
    // The number of diagnostics.
    LogTooShort(usize),
    // The words needed.
    SheetTooShort(u64),
}

impl Refusal {
    // The number that is returned.
    pub fn number(self) -> u32
        ensures { result ≡ refusal_number (refusal_in self) }
    {
        match self {
            Self::TextTooLong => 1,
            Self::WorkTooShort => 2,
            Self::InvalidUtf8(_) => 3,
            Self::OutsideSet(_) => 4,
            Self::LogTooShort(_) => 5,
            Self::SheetTooShort(_) => 6,
        }
    }

    // The value beside the number that is returned.
    pub fn value(self) -> u64
        ensures { result ≡ refusal_value (refusal_in self) }
    {
        match self {
            Self::TextTooLong | Self::WorkTooShort => 0,
            Self::InvalidUtf8(n) | Self::OutsideSet(n) | Self::LogTooShort(n) => n as u64,
            Self::SheetTooShort(n) => n,
        }
    }
}
