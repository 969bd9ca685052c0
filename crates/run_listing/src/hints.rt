// What to do about a refusal, in words for standard error. What cannot be written there is left out.
use crate::{Description, LOG_RECORDS, MAX_TEXT, SHEET_WORDS};
use reader_answer::Refusal;
use runner_answer::Unfit;
use runner_input::input_length;
use sheet_view::after;
use sheet_view::rule::rule_at;
use sheet_view::sections::Sections;
use std::io::Write;

// The number of tapes of the first rule that has another than its machine; 0 where there is none.
fn other_arity(machine: &Description<'_>) -> u32 {
    let head = machine.head;
    let mut rest = Sections {
        counts: head.counts,
        states: machine.sheet,
    }
    .rules();
    for _ in 0..head.counts.rules {
        let rule = rule_at(rest, 0);
        if rule.arity() != u32::from(head.tapes) {
            return rule.arity();
        }
        rest = after(rest, rule.length() as usize);
    }
    0
}

// Why a machine cannot run.
pub(crate) fn unfit<W: Write>(out: &mut W, unfit: Unfit, machine: &Description<'_>) {
    let tapes = machine.head.tapes;
    let _ = match unfit {
        Unfit::WrongTapes => writeln!(
            out,
            "the machine has {tapes} tapes, and a run has 1 to 3: what does `tapes` say?"
        ),
        Unfit::WrongArity => {
            let arity = other_arity(machine);
            if arity > 3 {
                writeln!(out, "a rule acts on {arity} tapes, and a run has 1 to 3")
            } else {
                writeln!(
                    out,
                    "a rule acts on {arity} tapes, and the machine has {tapes}: is there a line `tapes = {arity}`?"
                )
            }
        }
        Unfit::TooFewCells => {
            let input = input_length(machine.text, machine.head.input).max(1);
            writeln!(
                out,
                "the tapes need {} cells at least",
                (2 * u64::from(tapes)).saturating_mul(input as u64)
            )
        }
    };
}

// Why a text was not read.
pub(crate) fn refused<W: Write>(out: &mut W, refusal: Refusal) {
    let _ = match refusal {
        Refusal::TextTooLong => writeln!(out, "the text is longer than {MAX_TEXT} bytes"),
        // Work is as long as the longest text needs.
        Refusal::WorkTooShort => Ok(()),
        Refusal::InvalidUtf8(at) => writeln!(out, "at byte {at} stands no UTF-8"),
        Refusal::OutsideSet(at) => writeln!(
            out,
            "the character at byte {at} is none that is admitted"
        ),
        Refusal::LogTooShort(count) => writeln!(
            out,
            "{count} faults were found, and there is room for {LOG_RECORDS}: is this a description?"
        ),
        Refusal::SheetTooShort(words) => writeln!(
            out,
            "the machine takes {words} words, and there are {SHEET_WORDS}"
        ),
    };
}
