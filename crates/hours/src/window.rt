// One window: whether a pair of minutes is one, whether a minute is inside, and how long the wait to it is.
ghost use Rattle.std.specs.Prelude.{◌≡◌, ◌<◌};
ghost use Rattle.hours.specs.Code.{wait_of};
ghost use Rattle.hours.specs.Hours.{is_window, inside};

use crate::WEEK;

// Whether a window opens and closes within the week, and not at the same minute.
pub(crate) fn is_window(opening: u32, closing: u32) -> bool
    ensures { result ≡ is_window opening closing }
{
    opening < WEEK && closing < WEEK && opening != closing
}

// Whether a minute is inside a window; what is no window has no minute inside.
#[tactic(auto, using(std::proofs::Common::tests), unfolding(crate::specs::Hours::inside))]
pub(crate) fn inside(opening: u32, closing: u32, minute: u32) -> bool
    ensures { result ≡ inside opening closing minute }
{
    if !is_window(opening, closing) {
        return false;
    }
    if opening < closing {
        return opening <= minute && minute < closing;
    }
    opening <= minute || minute < closing
}

// The minutes until a window is open, the minutes of a week if it is none. A week is added first, so that nothing goes below 0.
#[tactic(auto, using(std::proofs::Common::tests), unfolding(crate::specs::Code::wait_of))]
pub(crate) fn wait_of(opening: u32, closing: u32, minute: u32) -> u32
    requires { minute < WEEK }
    ensures { result ≡ wait_of opening closing minute }
{
    if !is_window(opening, closing) {
        return WEEK;
    }
    if inside(opening, closing, minute) {
        return 0;
    }
    (opening + WEEK - minute) % WEEK
}
