// What a batch of machines answers: how a run stops, why an entry is refused, and why a batch is.
#![tactic(auto)]

ghost use Rattle.std.specs.Prelude.{◌≡◌};
ghost use Rattle.running.specs.Refusals.{unfit_number};
ghost use Rattle.running.specs.Batch.{stop_number, entry_numbers};
ghost use Rattle.runner_answer.specs.Answer.{stop_in, unfit_in, entry_refusal_in};
ghost use Rattle.runner_answer.specs.declared.EntryRefusal.TheVariants.{Reading};

use reader_answer::Refusal;
use reader_answer::words::DIAGNOSTICS;

pub mod words;

// Why a run stops, in the order in which it is tested (paper 02, request 2).
#[derive(Clone, Copy, Debug, PartialEq, Eq)]
pub enum Stop {
    // Its state is final.
    Halted,
    // No rule matches.
    Stuck,
    // The allowance is used.
    Spent,
    // A head would leave its tape.
    Edge,
}

impl Stop {
    // The number of a stop in an entry's answer.
    pub fn number(self) -> u64
        ensures { result ≡ stop_number (stop_in self) }
    {
        match self {
            Self::Halted => 0,
            Self::Stuck => 1,
            Self::Spent => 2,
            Self::Edge => 3,
        }
    }
}

// Why a machine that was read cannot run.
#[derive(Clone, Copy, Debug, PartialEq, Eq)]
pub enum Unfit {
    // It has none, or more than three.
    WrongTapes,
    // A rule acts on another number of tapes.
    WrongArity,
    // Half a tape has no cell, or fewer than the input has characters.
    TooFewCells,
}

impl Unfit {
    // The number that is returned.
    pub fn number(self) -> u32
        ensures { result ≡ unfit_number (unfit_in self) }
    {
        match self {
            Self::WrongTapes => 8,
            Self::WrongArity => 9,
            Self::TooFewCells => 10,
        }
    }
}

// Why an entry is refused.
#[derive(Clone, Copy, Debug, PartialEq, Eq)]
pub enum EntryRefusal {
    // What reading is refused for.
    Reading(Refusal),
    // The number of diagnostics.
    Diagnostics(usize),
    // Its machine cannot run.
    Unfit(Unfit),
}

impl From<Refusal> for EntryRefusal {
    ghost from_gives = { λ r e. e ≡ Reading r };

    fn from(refusal: Refusal) -> EntryRefusal {
        EntryRefusal::Reading(refusal)
    }
}

impl EntryRefusal {
    // The number that is returned.
    pub fn number(self) -> u32
        ensures { result ≡ (entry_numbers (entry_refusal_in self)).0 }
    {
        match self {
            Self::Reading(refusal) => refusal.number(),
            Self::Diagnostics(_) => DIAGNOSTICS,
            Self::Unfit(unfit) => unfit.number(),
        }
    }

    // The value beside the number that is returned: 0 of a machine that cannot run.
    pub fn value(self) -> u64
        ensures { result ≡ (entry_numbers (entry_refusal_in self)).1 }
    {
        match self {
            Self::Reading(refusal) => refusal.value(),
            Self::Diagnostics(n) => n as u64,
            Self::Unfit(_) => 0,
        }
    }
}

// Why a batch is refused.
#[derive(Clone, Copy, Debug, PartialEq, Eq)]
pub enum BatchRefusal {
    // The lengths pass what was lent, or the answers lack room.
    NotLent,
    // The index of the first entry that is refused, and why.
    Entry(usize, EntryRefusal),
}
