// The windows of a station for callers in other languages, over one lent row of 65 words: the count, 32 opening minutes, 32
// closing minutes.
ghost use Rattle.std.specs.Prelude.{◌≡◌, ◌≤◌, ◌++◌, length, drop};
ghost use Rattle.hours.specs.Hours.{openness, wait_answer};
ghost use Rattle.hours.specs.Rows.{openness_number, hours_of, words_of, row_added, wait_given};

use crate::{Hours, HoursRefusal, MAX_WINDOWS};

// Where the opening minutes stand in a row.
const OPENS: usize = 1;

// Where the closing minutes stand in a row.
const CLOSES: usize = OPENS + MAX_WINDOWS;

// The words of a row.
const ROW_WORDS: usize = CLOSES + MAX_WINDOWS;

// The windows that a row lists; a row that is too short lists none.
fn hours_of(row: &[u32]) -> Hours
    ensures { result ≡ hours_of row.now }
{
    let mut hours = Hours::new();
    if row.len() < ROW_WORDS {
        return hours;
    }
    hours.count = row[0];
    hours.opens.copy_from_slice(&row[OPENS..CLOSES]);
    hours.closes.copy_from_slice(&row[CLOSES..ROW_WORDS]);
    hours
}

// Windows at the front of a row.
fn put(hours: Hours, row: &mut [u32])
    requires { ROW_WORDS ≤ length row.old }
    ensures { row.new ≡ words_of hours ++ drop ROW_WORDS row.old }
{
    row[0] = hours.count;
    row[OPENS..CLOSES].copy_from_slice(&hours.opens);
    row[CLOSES..ROW_WORDS].copy_from_slice(&hours.closes);
}

// A window more: 0, 20 or 21. A row that is too short has no room, and a row where nothing is added is left as it is.
#[unsafe(no_mangle)]
pub extern "C" fn pevzoncs_hours_add(row: &mut [u32], opening: u32, closing: u32) -> u32
    ensures { (result, row.new) ≡ row_added row.old opening closing }
{
    if row.len() < ROW_WORDS {
        return HoursRefusal::OutOfRange.number();
    }
    let added = hours_of(row).add(opening, closing);
    match added.answer {
        Ok(()) => {
            put(added.hours, row);
            0
        }
        Err(refusal) => refusal.number(),
    }
}

// Whether a minute is open: 0 closed, 1 open, or 20.
#[unsafe(no_mangle)]
pub extern "C" fn pevzoncs_hours_open(row: &[u32], minute: u32) -> u32
    ensures { result ≡ openness_number (openness (hours_of row.now) minute) }
{
    match hours_of(row).is_open(minute) {
        Ok(open) => u32::from(open),
        Err(refusal) => refusal.number(),
    }
}

// The shortest wait to an open minute: 0 with the minutes in the answer's first word, 1 if no minute is open, or 20.
#[unsafe(no_mangle)]
pub extern "C" fn pevzoncs_hours_wait(row: &[u32], minute: u32, answer: &mut [u32]) -> u32
    ensures { (result, answer.new) ≡ wait_given (wait_answer (hours_of row.now) minute) answer.old }
{
    match hours_of(row).wait(minute) {
        Ok(Some(minutes)) => {
            if !answer.is_empty() {
                answer[0] = minutes;
            }
            0
        }
        Ok(None) => 1,
        Err(refusal) => refusal.number(),
    }
}
