// Replays the oracle's stored answers. Cases come from standard input (oracle/src/store.rs says how they are laid out); each is
// read and written with dirty buffers of the lengths that it says, and every word of the answers and of what the calls leave
// behind is compared. Written are a line for each case that differs, and how many of each kind of answer agreed.
#![tactic(auto)]

ghost use Rattle.std.specs.Prelude.{◌≡◌, ◌<◌, ◌≤◌, true, length, take, drop, replicate, IfOk};
ghost use Rattle.language.specs.Outcome.{read_outcome, write_outcome};
ghost use Rattle.replay.specs.Case.{word_at, marked, wanted, left, rows_left, work_left, agrees, output_left, output_at};
ghost use Rattle.replay.specs.Case.{form_agrees, Fronts, Rooms, Within, lengths_fit, reading_agrees, writing_agrees};

use std::io::{self, Read};

// The mark that says that a row is left untouched. A mark is no Option, since it is a word of the stored case
// (oracle/src/store.rs), and the definitions read it as it is stored.
const UNTOUCHED: u32 = 0xffff_ffff;
// Bytes of a case in front of the log's words.
const HEAD: usize = 192;
// Bytes of a case.
const CASE: usize = 32_768;
// Words of work, and of log and sheet: the most that is lent.
const WORK: usize = 40_960;

const ROW: usize = 16_384;
// Bytes of output: the most that is lent.
const OUTPUT: usize = 65_536;
// What a byte of output holds before a call.
const DIRT: u8 = 165;

// The little-endian word at an index of stored bytes, 0 behind the last.
fn word_at(case: &[u8], i: usize) -> u32
    ensures { result ≡ word_at case.now i }
{
    match case.as_chunks::<4>().0.get(i) {
        Some(bytes) => u32::from_le_bytes(*bytes),
        None => 0,
    }
}

// The length at an index of a case.
fn size_at(case: &[u8], i: usize) -> usize
    ensures { (result ≡ word_at case.now i)
        × (result < 4294967296) }
{
    word_at(case, i) as usize
}

// How many words or bytes a mark says are stored.
fn marked(mark: u32) -> usize
    ensures { (result ≡ marked mark)
        × (result < 4294967296) }
{
    if mark == UNTOUCHED { 0 } else { mark as usize }
}

// Whether an output begins with the bytes that are stored, and holds behind them what was there before.
fn output_left(stored: &[u8], output: &[u8]) -> bool
    ensures { result ≡ output_left stored.now output.now }
{
    output.starts_with(stored) && output[stored.len()..].iter().all(|byte| *byte == DIRT)
}

// Fills a row with the front of another.
fn soil(before: &[u32], row: &mut [u32])
    requires { length row.old ≤ length before.now }
    ensures { row.new ≡ take (length row.old) before.now }
{
    row.copy_from_slice(&before[..row.len()]);
}

// Fills an output.
fn soil_output(output: &mut [u8])
    ensures { output.new ≡ replicate (length output.old) 165 }
{
    output.fill(DIRT);
}

// Whether the reading call and the writing call agree with a case.
#[derive(Clone, Copy)]
struct Agreed {
    reading: bool,
    writing: bool,
}

// A stored case, and what the rows of words hold before a call.
#[derive(Clone, Copy)]
struct Stored<'a> {
    case: &'a [u8],
    before: &'a [u32],
    ghost enough: { 40960 ≤ length before.now },
}

// The rows that are lent to a call stay parameters of their own: a struct of them was tried, and of a struct that is lent itself
// the borrow checker does not cover parts of several fields lent at once.
impl Stored<'_> {
    // The word that is to stand at i.
    fn wanted(&self, from: usize, mark: u32, i: usize) -> u32
        requires { from < 8589934592 }
        ensures { result ≡ wanted self.now.before.now self.now.case.now from mark i }
    {
        if mark == UNTOUCHED {
            self.before.get(i).copied().unwrap_or(0)
        } else if i < mark as usize {
            word_at(self.case, from + i)
        } else {
            0
        }
    }

    // Whether a row is left as stored.
    fn left(&self, from: usize, mark: u32, row: &[u32]) -> bool
        requires { from < 8589934592 }
        ensures { result ≡ left self.now.before.now self.now.case.now from mark row.now }
    {
        marked(mark) <= row.len()
            && row
                .iter()
                .enumerate()
                .all(|(i, word)| *word == self.wanted(from, mark, i))
    }

    // Whether work is as an answer of this number leaves it: untouched by refusals 1 and 2.
    fn work_left(&self, number: u32, work: &[u32]) -> bool
        requires { length work.now ≤ length self.now.before.now }
        ensures { result ≡ work_left number self.now.before.now self.now.case.now work.now }
    {
        match number {
            1 | 2 => self.left(0, UNTOUCHED, work),
            _ => true,
        }
    }

    // Whether log and sheet are left as stored.
    fn rows_left(&self, log: &[u32], sheet: &[u32]) -> bool
        requires { (length log.now ≤ length self.now.before.now)
            × (length sheet.now ≤ length self.now.before.now) }
        ensures { result ≡ rows_left self.now.before.now self.now.case.now log.now sheet.now }
    {
        let m = word_at(self.case, 6);
        let from = 48 + marked(m);
        self.left(48, m, log) && self.left(from, word_at(self.case, 7), sheet)
    }

    // Whether an output is left as stored, where what is stored ends at an offset.
    fn output_at(&self, end: usize, output: &[u8]) -> bool
        requires { end ≤ length self.now.case.now }
        ensures { result ≡ output_at self.now.case.now end output.now }
    {
        let n = marked(word_at(self.case, 8));
        n <= end && output_left(&self.case[end - n..end], output)
    }

    // Whether a reading call of a text, with dirty buffers, agrees with what is stored.
    fn answer_agrees(
        &self,
        text: &[u8],
        work: &mut [u32],
        log: &mut [u32],
        sheet: &mut [u32],
    ) -> bool
        requires fronts { Fronts self.now.before.now work.old log.old sheet.old }
        requires soiled { work.old ≡ take (length work.old) self.now.before.now }
        ensures { result ≡ agrees self.now.before.now self.now.case.now
            (read_outcome text.now (length work.old) log.old sheet.old) }
    {
        let answer = reader_answer::words::answer_words(reader::read(text, work, log, sheet));
        self.left(9, 36, &answer) && self.rows_left(log, sheet) && self.work_left(answer[0], work)
    }

    // Whether a reading call agrees with what is stored, with buffers that are filled with the front of `before` first.
    #[tactic(auto, using(crate::proofs::Laws::soiled))]
    fn read_agrees(&self, text: &[u8], work: &mut [u32], log: &mut [u32], sheet: &mut [u32]) -> bool
        requires { Fronts self.now.before.now work.old log.old sheet.old }
        ensures { result ≡ agrees self.now.before.now self.now.case.now (read_outcome text.now (length work.old)
            (take (length log.old) self.now.before.now) (take (length sheet.old) self.now.before.now)) }
    {
        soil(self.before, work);
        soil(self.before, log);
        soil(self.before, sheet);
        self.answer_agrees(text, work, log, sheet)
    }

    // Whether a writing call of the text that begins at an offset agrees with what is stored; the output's bytes end there.
    fn form_agrees(
        &self,
        end: usize,
        work: &mut [u32],
        log: &mut [u32],
        sheet: &mut [u32],
        output: &mut [u8],
    ) -> bool
        requires fronts { Fronts self.now.before.now work.old log.old sheet.old }
        requires soiled { work.old ≡ take (length work.old) self.now.before.now }
        requires inside { end ≤ length self.now.case.now }
        ensures { result ≡ form_agrees self.now.before.now self.now.case.now end
            (write_outcome (drop end self.now.case.now) (length work.old) log.old sheet.old output.old) }
    {
        let mut answer = [7u32; 36];
        let text = &self.case[end..];
        let number = writer::pevzoncs_write(text, work, log, sheet, output, &mut answer);
        self.left(45, 3, &answer)
            && self.rows_left(log, sheet)
            && self.output_at(end, output)
            && self.work_left(number, work)
    }

    // Whether a writing call agrees with what is stored, with buffers that are filled first.
    #[tactic(auto, using(crate::proofs::Laws::soiled))]
    fn write_agrees(
        &self,
        end: usize,
        work: &mut [u32],
        log: &mut [u32],
        sheet: &mut [u32],
        output: &mut [u8],
    ) -> bool
        requires fronts { Fronts self.now.before.now work.old log.old sheet.old }
        requires inside { end ≤ length self.now.case.now }
        ensures { result ≡ form_agrees self.now.before.now self.now.case.now end (write_outcome (drop end self.now.case.now)
            (length work.old) (take (length log.old) self.now.before.now) (take (length sheet.old) self.now.before.now)
            (replicate (length output.old) 165)) }
    {
        soil(self.before, work);
        soil(self.before, log);
        soil(self.before, sheet);
        soil_output(output);
        self.form_agrees(end, work, log, sheet, output)
    }

    // Whether the lengths of a case are within the program's buffers, and its text within the case.
    #[tactic(auto, using(crate::proofs::Laws::fits))]
    fn lengths_fit(&self) -> bool
        ensures { (result ≡ lengths_fit self.now.case.now)
            × (result ≡ true → Within self.now.case.now) }
    {
        if WORK < size_at(self.case, 2) {
            return false;
        }
        if ROW < size_at(self.case, 3) {
            return false;
        }
        if ROW < size_at(self.case, 4) {
            return false;
        }
        size_at(self.case, 1) <= self.case.len()
    }

    // Whether the reading call agrees with a case; one whose lengths are beyond the program's buffers does not.
    fn reading_agrees(&self, work: &mut [u32], log: &mut [u32], sheet: &mut [u32]) -> bool
        requires { Rooms work.old log.old sheet.old }
        ensures { result ≡ reading_agrees self.now.before.now self.now.case.now }
    {
        if !self.lengths_fit() {
            return false;
        }
        let begin = self.case.len() - size_at(self.case, 1);
        let w = size_at(self.case, 2);
        let l = size_at(self.case, 3);
        let s = size_at(self.case, 4);
        self.read_agrees(
            &self.case[begin..],
            &mut work[..w],
            &mut log[..l],
            &mut sheet[..s],
        )
    }

    // Whether the writing call agrees with a case.
    fn writing_agrees(
        &self,
        work: &mut [u32],
        log: &mut [u32],
        sheet: &mut [u32],
        output: &mut [u8],
    ) -> bool
        requires rooms { Rooms work.old log.old sheet.old }
        requires output { 65536 ≤ length output.old }
        ensures { result ≡ writing_agrees self.now.before.now self.now.case.now }
    {
        if !self.lengths_fit() {
            return false;
        }
        let o = size_at(self.case, 5);
        if OUTPUT < o {
            return false;
        }
        let begin = self.case.len() - size_at(self.case, 1);
        let w = size_at(self.case, 2);
        let l = size_at(self.case, 3);
        let s = size_at(self.case, 4);
        self.write_agrees(
            begin,
            &mut work[..w],
            &mut log[..l],
            &mut sheet[..s],
            &mut output[..o],
        )
    }

    // Whether each of the calls agrees with the case.
    fn agreed(
        &self,
        work: &mut [u32],
        log: &mut [u32],
        sheet: &mut [u32],
        output: &mut [u8],
    ) -> Agreed
        requires rooms { Rooms work.old log.old sheet.old }
        requires output { 65536 ≤ length output.old }
        ensures reading { result.reading ≡ reading_agrees self.now.before.now self.now.case.now }
        ensures writing { result.writing ≡ writing_agrees self.now.before.now self.now.case.now }
    {
        let reading = self.reading_agrees(work, log, sheet);
        let writing = self.writing_agrees(work, log, sheet, output);
        Agreed { reading, writing }
    }
}

// Words that no answer is likely to hold, all different.
fn scatter(row: &mut [u32]) {
    let mut dirt = 0xa5a5_a5a5u32;
    for word in row {
        *word = dirt;
        dirt = dirt.wrapping_add(0x9e37_79b9);
    }
}

// The place of an answer's number in the tally: a machine 0, refusals by their number, diagnostics 8.
fn kind(number: u32) -> usize
    ensures { result < 9 }
{
    (number as usize).min(8)
}

// Reads the next case and answers its length, or 0 where it is not whole.
fn load(input: &mut impl Read, case: &mut [u8]) -> io::Result<usize>
    requires { 32768 ≤ length case.old }
    ensures { IfOk result (λ n. n ≤ 32768) }
{
    if program_input::fill(input, &mut case[..HEAD])? < HEAD {
        return Ok(0);
    }
    let n = size_at(case, 0);
    if CASE - HEAD < n {
        return Ok(0);
    }
    let e = HEAD + n;
    if program_input::fill(input, &mut case[HEAD..e])? < n {
        return Ok(0);
    }
    Ok(e)
}

// Writes a number behind a word, as a line.
fn say(rt: &impl Print, what: &str, n: u32) -> io::Result<()> {
    println!(rt; "{what}{n}")
}

// Writes how many cases of a kind agreed.
fn say_kind(rt: &impl Print, k: usize, n: u32) -> io::Result<()> {
    match k {
        0 => println!(rt; "machine: {n}"),
        8 => println!(rt; "diagnostics: {n}"),
        _ => println!(rt; "refused {k}: {n}"),
    }
}

// How many cases agreed, for each kind of answer to the reading and the writing call.
#[derive(Drop)]
struct Tally {
    reading: [u32; 9],
    writing: [u32; 9],
}

// Counts a case that agrees, and says which does not.
fn count(
    rt: &impl Print,
    agrees: bool,
    k: usize,
    tally: &mut [u32; 9],
    what: &str,
    i: u32,
) -> io::Result<()>
    requires { k < 9 }
{
    if agrees {
        tally[k] = tally[k].wrapping_add(1);
        Ok(())
    } else {
        say(rt, what, i)
    }
}

// Counts what agreed of a case, the i-th, and says what did not.
fn count_case(
    rt: &impl Print,
    i: u32,
    case: &[u8],
    agreed: Agreed,
    tally: &mut Tally,
) -> io::Result<()> {
    let k = kind(word_at(case, 9));
    count(
        rt,
        agreed.reading,
        k,
        &mut tally.reading,
        "reading differs: case ",
        i,
    )?;
    let l = kind(word_at(case, 45));
    count(
        rt,
        agreed.writing,
        l,
        &mut tally.writing,
        "writing differs: case ",
        i,
    )
}

// Replays the cases of an input, whose first word says how many they are; how many of each kind agreed.
fn replay(
    rt: &impl Print,
    input: &mut impl Read,
    before: &[u32],
    work: &mut [u32],
    log: &mut [u32],
    sheet: &mut [u32],
    output: &mut [u8],
) -> io::Result<Tally>
    requires before { 40960 ≤ length before.now }
    requires rooms { Rooms work.old log.old sheet.old }
    requires output { 65536 ≤ length output.old }
{
    let mut tally = Tally {
        reading: [0; 9],
        writing: [0; 9],
    };
    let mut case = [0u8; CASE];
    program_input::fill(input, &mut case[..4])?;
    let n = word_at(&case, 0);
    for i in 0..n {
        let e = load(input, &mut case)?;
        let stored = Stored {
            case: &case[..e],
            before,
        };
        let agreed = stored.agreed(work, log, sheet, output);
        count_case(rt, i, stored.case, agreed, &mut tally)?;
    }
    Ok(tally)
}

// Says how many cases of each kind agreed.
fn say_kinds(rt: &impl Print, tally: &[u32; 9]) -> io::Result<()> {
    for (k, n) in tally.iter().enumerate() {
        say_kind(rt, k, *n)?;
    }
    Ok(())
}

fn main(rt: HostRuntime) -> io::Result<()> {
    let mut before = [0u32; WORK];
    let mut work = [0u32; WORK];
    let mut log = [0u32; ROW];
    let mut sheet = [0u32; ROW];
    let mut output = [0u8; OUTPUT];
    scatter(&mut before);
    let mut stdin = rt.stdin();
    let tally = replay(
        &rt,
        &mut stdin,
        &before,
        &mut work,
        &mut log,
        &mut sheet,
        &mut output,
    )?;
    println!(&rt; "reading")?;
    say_kinds(&rt, &tally.reading)?;
    println!(&rt; "writing")?;
    say_kinds(&rt, &tally.writing)
}
