// What a writing call answers.
#![tactic(auto)]

ghost use Rattle.std.specs.Prelude.{◌≡◌};
ghost use Rattle.language.specs.Outcome.{refusal_number, refusal_value};
ghost use Rattle.writer_answer.specs.Answer.{refusal_in};
ghost use Rattle.writer_answer.specs.declared.WriteRefusal.TheVariants.{Reading};

use reader_answer::Refusal;

pub mod words;

// What a writing call that is not refused answers (paper 01, "What a call returns").
#[derive(Clone, Copy, Debug, PartialEq, Eq)]
pub enum WriteAnswer {
    // The length of the form, which stands at the output's front.
    Written(usize),
    // The number of diagnostics.
    Diagnostics(usize),
}

// Why a writing call is refused.
#[derive(Clone, Copy, Debug, PartialEq, Eq)]
pub enum WriteRefusal {
    // What reading is refused for.
    Reading(Refusal),
    // The bytes that the form needs.
    OutputTooShort(u64),
}

impl From<Refusal> for WriteRefusal {
    ghost from_gives = { λ r w. w ≡ Reading r };

    fn from(refusal: Refusal) -> WriteRefusal {
        WriteRefusal::Reading(refusal)
    }
}

impl WriteRefusal {
    // The number that is returned.
    pub(crate) fn number(self) -> u32
        ensures { result ≡ refusal_number (refusal_in self) }
    {
        match self {
            Self::Reading(refusal) => refusal.number(),
            Self::OutputTooShort(_) => 7,
        }
    }

    // The value beside the number that is returned. `number` has the same two cases, but hands on another method's result, of
    // another type.
    pub(crate) fn value(self) -> u64
        ensures { result ≡ refusal_value (refusal_in self) }
    {
        match self {
            Self::Reading(refusal) => refusal.value(),
            Self::OutputTooShort(n) => n,
        }
    }
}
