// What the list program prints: a text is read, and the answer listed.
#![tactic(auto)]

ghost use Rattle.std.specs.Prelude.{◌≡◌, length, replicate, OnOk};
ghost use Rattle.std.specs.Io.KnownBytes.{Appends};
ghost use Rattle.language.specs.Outcome.{read_outcome};
ghost use Rattle.reader_answer.specs.Answer.{read_in};
ghost use Rattle.emit.specs.Output.{output, appended};
ghost use Rattle.list_lines.specs.Listing.{lines, listed};
ghost use Rattle.list_lines.specs.Puts.{Puts};

use emit::Output;
use reader_answer::{Answer, Refusal};
use std::io::{self, Write};

// The longest text that is taken.
pub const MAX_INPUT: usize = 2048;

// Words of work that the longest text needs.
const WORK_WORDS: usize = 12294;

// The number of records of a log.
const RECORDS: usize = 1024;

// Words of a log of so many records.
const LOG_WORDS: usize = 5120;

// Words of a sheet.
const SHEET_WORDS: usize = 16384;

// More bytes than any listing has (crate list_room).
const LISTING_BYTES: usize = 2097152;

// Reads a text as `reader::read` does with a log of 5,120 zeros: the log's records are copied to `words`.
fn read(
    text: &[u8],
    work: &mut [u32],
    words: &mut [u32],
    sheet: &mut [u32],
) -> Result<Answer, Refusal>
    requires { length words.old ≡ 5120 }
    ensures { read_in result words.new sheet.new ≡ read_outcome text.now (length work.old) (replicate 5120 0) sheet.old }
{
    let mut log = [diag_records::UNUSED; RECORDS];
    let answer = reader_records::read(text, work, &mut log, sheet);
    diag_records::spill(&log, words, RECORDS);
    answer
}

// Lists an answer with its log and sheet.
fn list(out: &mut Output, answer: Result<Answer, Refusal>, text: &[u8], log: &[u32], sheet: &[u32])
    ensures { Puts (lines text.now (read_in answer log.now sheet.now)) out.old out.new }
{
    match answer {
        Ok(Answer::Machine(head)) => list_lines::machine(out, text, &head, sheet),
        Ok(Answer::Diagnostics(n)) => list_lines::diagnosed(out, text, n, log),
        Err(refusal) => list_lines::refused(out, refusal.number(), refusal.value()),
    }
}

// Lists a text as `list_text` does, in buffers of the paper's sizes, whatever they hold.
fn list_in(
    text: &[u8],
    work: &mut [u32],
    log: &mut [u32],
    sheet: &mut [u32],
    out: &mut [u8],
) -> usize
    requires work { length work.old ≡ 12294 }
    requires log { length log.old ≡ 5120 }
    requires sheet { length sheet.old ≡ 16384 }
    ensures { output out.new result ≡ appended (output out.old 0) (listed text.now) }
{
    let answer = if MAX_INPUT < text.len() {
        Err(Refusal::TextTooLong)
    } else {
        read(text, work, log, sheet)
    };
    let mut listing = Output::new(out);
    list(&mut listing, answer, text, log, sheet);
    listing.count()
}

// An array of one value. Its contract gives the length alone, so that no proof writes out the elements.
fn filled<T: Copy, const N: usize>(value: T) -> [T; N]
    ensures { length result ≡ N }
{
    [value; N]
}

// Reads a text and lists the answer at the front of `out`, as far as there is room; the listing's length.
// A text above 2,048 bytes is refused.
pub fn list_text(text: &[u8], out: &mut [u8]) -> usize
    ensures { output out.new result ≡ appended (output out.old 0) (listed text.now) }
{
    let mut work = filled::<u32, WORK_WORDS>(0);
    let mut log = filled::<u32, LOG_WORDS>(0);
    let mut sheet = filled::<u32, SHEET_WORDS>(0);
    list_in(text, &mut work, &mut log, &mut sheet, out)
}

// The listing of a text at the front of a row in which every listing has room, so that nothing is cut off.
fn listing_of<'a>(text: &[u8], row: &'a mut [u8]) -> &'a [u8]
    requires { length row.old ≡ 2097152 }
    ensures { result.now ≡ listed text.now }
{
    let n = list_text(text, row);
    &row[..n]
}

// Prints the listing of a text: it fails where the writer does, and where it succeeds, the whole of it was written.
pub fn print<W: Write>(out: &mut W, text: &[u8]) -> io::Result<()>
    ensures { OnOk result (Appends (W.contents out.old) (W.contents out.new) (listed text.now)) }
{
    let mut row = filled::<u8, LISTING_BYTES>(0);
    out.write_all(listing_of(text, &mut row))
}
