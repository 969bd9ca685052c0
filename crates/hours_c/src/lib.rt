// The opening hours of a station for callers in other languages: the calls of crate hours over a row of words, exported from a
// static library.
#![tactic(auto)]

ghost use Rattle.std.specs.Prelude.{◌≡◌};
ghost use Rattle.hours.specs.Hours.{openness, wait_answer};
ghost use Rattle.hours.specs.Rows.{hours_of, row_added, openness_number, wait_given};

// A window more: 0, 20 or 21. A row that is too short has no room, and a row where nothing is added is left as it is.
#[unsafe(no_mangle)]
pub extern "C" fn pevzoncs_hours_add(row: &mut [u32], opening: u32, closing: u32) -> u32
    ensures { (result, row.new) ≡ row_added row.old opening closing }
{
    hours::row::pevzoncs_hours_add(row, opening, closing)
}

// Whether a minute is open: 0 closed, 1 open, or 20.
#[unsafe(no_mangle)]
pub extern "C" fn pevzoncs_hours_open(row: &[u32], minute: u32) -> u32
    ensures { result ≡ openness_number (openness (hours_of row.now) minute) }
{
    hours::row::pevzoncs_hours_open(row, minute)
}

// The shortest wait to an open minute: 0 with the minutes in the answer's first word, 1 if no minute is open, or 20.
#[unsafe(no_mangle)]
pub extern "C" fn pevzoncs_hours_wait(row: &[u32], minute: u32, answer: &mut [u32]) -> u32
    ensures { (result, answer.new) ≡ wait_given (wait_answer (hours_of row.now) minute) answer.old }
{
    hours::row::pevzoncs_hours_wait(row, minute, answer)
}
