// When a station is open: up to 32 windows of the week, by value. A minute of the week runs from 0, Monday 00:00 UTC, to 10,079.
#![tactic(auto)]

ghost use Rattle.std.specs.Prelude.{◌≡◌, ◌<◌};
ghost use Rattle.hours.specs.Hours.{refusal_number, listed, is_open, openness, waiting, wait_answer, empty, added};

pub mod row;
mod window;

use window::{inside, wait_of};

// The minutes of a week.
pub const WEEK: u32 = 10_080;

// The most windows that a station lists.
pub const MAX_WINDOWS: usize = 32;

// The windows in the order in which they were added: of each its opening minute, which is inside, and its closing minute, which
// is not.
#[derive(Clone, Copy)]
pub struct Hours {
    pub opens: [u32; MAX_WINDOWS],
    pub closes: [u32; MAX_WINDOWS],
    pub count: u32,
}

// Why a call is refused.
#[derive(Clone, Copy, Debug, PartialEq, Eq)]
pub enum HoursRefusal {
    // A minute is above 10,079, or there are 32 windows.
    OutOfRange,
    // The window opens and closes at the same minute.
    EmptyWindow,
}

impl HoursRefusal {
    // The number that is returned.
    pub fn number(self) -> u32
        ensures { result ≡ refusal_number self }
    {
        match self {
            Self::OutOfRange => 20,
            Self::EmptyWindow => 21,
        }
    }
}

// How adding a window ended, and the windows afterwards. They stand beside the answer, since an enum holds no array.
#[derive(Clone, Copy)]
pub struct Added {
    pub answer: Result<(), HoursRefusal>,
    pub hours: Hours,
}

impl Hours {
    // No window.
    pub fn new() -> Self
        ensures { result ≡ empty }
    {
        Self {
            opens: [0; MAX_WINDOWS],
            closes: [0; MAX_WINDOWS],
            count: 0,
        }
    }

    // How many windows are listed, however many a forged count says.
    fn listed(&self) -> usize
        ensures { result ≡ listed self.now }
    {
        (self.count as usize).min(MAX_WINDOWS)
    }

    // Whether a minute is inside one of the windows.
    fn is_inside(&self, minute: u32) -> bool
        ensures { result ≡ is_open self.now minute }
    {
        for i in 0..self.listed() {
            if inside(self.opens[i], self.closes[i], minute) {
                return true;
            }
        }
        false
    }

    // The shortest wait to one of the windows, the minutes of a week if there is none.
    fn shortest(&self, minute: u32) -> u32
        requires { minute < WEEK }
        ensures { result ≡ waiting self.now minute }
    {
        let mut best = WEEK;
        for i in 0..self.listed() {
            best = best.min(wait_of(self.opens[i], self.closes[i], minute));
        }
        best
    }

    // A window more; one that is refused leaves the windows as they are.
    #[tactic(auto, using(std::proofs::Common::tests), unfolding(crate::specs::Hours::added))]
    pub fn add(self, opening: u32, closing: u32) -> Added
        ensures { result ≡ added self opening closing }
    {
        let at = self.count as usize;
        if opening >= WEEK || closing >= WEEK || at >= MAX_WINDOWS {
            return Added {
                answer: Err(HoursRefusal::OutOfRange),
                hours: self,
            };
        }
        if opening == closing {
            return Added {
                answer: Err(HoursRefusal::EmptyWindow),
                hours: self,
            };
        }
        let mut hours = self;
        hours.opens[at] = opening;
        hours.closes[at] = closing;
        hours.count += 1;
        Added {
            answer: Ok(()),
            hours,
        }
    }

    // Whether a minute of the week is open.
    #[tactic(auto, using(std::proofs::Common::tests), unfolding(crate::specs::Hours::openness))]
    pub fn is_open(self, minute: u32) -> Result<bool, HoursRefusal>
        ensures { result ≡ openness self minute }
    {
        if minute < WEEK {
            Ok(self.is_inside(minute))
        } else {
            Err(HoursRefusal::OutOfRange)
        }
    }

    // The shortest wait to an open minute, none if no minute is open: 0 if the minute is open, at most 10,079, and over the week's
    // end it goes on at Monday.
    #[tactic(auto, using(std::proofs::Common::tests), unfolding(crate::specs::Hours::wait_answer))]
    pub fn wait(self, minute: u32) -> Result<Option<u32>, HoursRefusal>
        ensures { result ≡ wait_answer self minute }
    {
        if minute >= WEEK {
            return Err(HoursRefusal::OutOfRange);
        }
        let best = self.shortest(minute);
        if best < WEEK {
            return Ok(Some(best));
        }
        Ok(None)
    }
}
