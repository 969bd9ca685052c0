// The parts of a reading call that hold no record of its log: a text is refused, or it is entered, and its machine written or its
// diagnostics counted. So all of the answer is known, and only the log is still to be written.
#![tactic(auto)]

ghost use Rattle.std.specs.Prelude.{ℕ, ◌≡◌, length, None, IfOk, OnErr};
ghost use Rattle.language.specs.Outcome.{refusal_of, zeros, read_machine};
ghost use Rattle.reader_theorems.specs.Ready.{lines_of};
ghost use Rattle.reader_answer.specs.Answer.{read_in};
ghost use Rattle.reader_admission.specs.Admission.{refused_by};
ghost use Rattle.reader_steps.specs.Begun.{Begun};
ghost use Rattle.reader_steps.specs.Opens.{Opens};

use assembler::Assembled;
use diag_search::Search;
use reader::written;
use reader_answer::{Answer, Refusal};

// Enters an admitted text: its tokens stand in work, its lines are assembled, and the search for its diagnostics is at its
// beginning.
fn enter(text: &[u8], work: &mut [u32]) -> Search
    requires { refusal_of text.now (length work.old) ≡ None }
    ensures { Begun text.now work.new result }
{
    let count = lexer::tokenize(text, work);
    diag_search::start(text, work, count)
}

// The machine of a text without diagnostics.
fn machine(
    text: &[u8],
    work: &mut [u32],
    search: Search,
    sheet: &mut [u32],
) -> Result<Answer, Refusal>
    requires { Begun text.now work.old search
        × (search.errors ≡ 0) }
    ensures { (n : ℕ) → read_in result (zeros n) sheet.new ≡ read_machine (lines_of text.now) n (length sheet.old) }
{
    let Search {
        count,
        first,
        rules,
        errors,
        ..
    } = search;
    let assembled = Assembled {
        first,
        rules,
        errors,
    };
    written::machine(text, work, count, &assembled, sheet)
}

// What an admitted text is answered, and the search for the diagnostics that the log takes, at its beginning; none where there
// are none, or too many.
#[derive(Clone, Copy)]
pub struct Opened {
    pub answer: Result<Answer, Refusal>,
    pub found: Option<Search>,
}

// The log is not lent to what follows, so that the number of its records stands for it.

// Opens a text that is not refused.
fn admitted(text: &[u8], work: &mut [u32], records: usize, sheet: &mut [u32]) -> Opened
    requires { refusal_of text.now (length work.old) ≡ None }
    ensures { Opens text.now work.old records sheet.old work.new sheet.new result }
{
    let search = enter(text, work);
    let errors = search.errors;
    if errors == 0 {
        return Opened {
            answer: machine(text, work, search, sheet),
            found: None,
        };
    }
    sheet.fill(0);
    if records < errors {
        return Opened {
            answer: Err(Refusal::LogTooShort(errors)),
            found: None,
        };
    }
    Opened {
        answer: Ok(Answer::Diagnostics(errors)),
        found: Some(search),
    }
}

// Opens a text for a log of so many records; the rows 1 to 4 leave everything as it was.
pub fn open(
    text: &[u8],
    work: &mut [u32],
    records: usize,
    sheet: &mut [u32],
) -> Result<Opened, Refusal>
    ensures refused { refused_by result ≡ refusal_of text.now (length work.old) }
    ensures err { OnErr result ((work.new ≡ work.old) × (sheet.new ≡ sheet.old)) }
    ensures ok { IfOk result (Opens text.now work.old records sheet.old work.new sheet.new) }
{
    reader_admission::check(text, work.len())?;
    Ok(admitted(text, work, records, sheet))
}
