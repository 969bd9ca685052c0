// The rule line of at most n bytes that expands the most: how it is spread over tapes and read sets, and its number of rules.
#![tactic(auto)]

ghost use Rattle.std.specs.Prelude.{◌≡◌, ◌<◌, ◌≤◌, length, take, get_or, IfOk};
ghost use Rattle.longest.specs.Call.{refusal_number, is_answered, longest, answer_words, stored, given};
ghost use Rattle.longest.specs.Line.{tapes_for, members, set_size, number_for};
ghost use Rattle.longest.specs.Most.{Most};

mod text;

// How many bytes the shortest rule line has, `δ(a,a)=(a,a,R)`.
const SHORTEST: u64 = 15;

// The largest number of bytes that a line is written for.
const LONGEST: u64 = 96;

// Words of an answer.
const ANSWER_WORDS: usize = 4;

// The length of the line, and how many rules it expands to.
#[derive(Clone, Copy)]
pub struct BestLine {
    pub length: usize,
    pub rules: u64,
}

// Why no line is written.
#[derive(Clone, Copy, Debug, PartialEq, Eq)]
pub enum LongestRefusal {
    // The bytes are below 15 or above 96, or more than the output has.
    OutOfRange,
}

impl LongestRefusal {
    // The number that is returned.
    pub fn number(self) -> u32
        ensures { result ≡ refusal_number self }
    {
        match self {
            Self::OutOfRange => 22,
        }
    }
}

// On how many tapes so many pairs of bytes beyond the shortest line are spent best.
fn tapes_for(pairs: usize) -> usize
    ensures { result ≡ tapes_for pairs }
{
    match pairs {
        0..=13 => 1,
        14..=20 => 2,
        21..=27 => 3,
        28..=36 => 4,
        _ => 5,
    }
}

// How many symbols the read sets have together: each takes a pair of bytes. Each of several tapes takes three pairs more: the
// brackets of its set with a comma, and an entry with a comma in what is written and in the moves.
fn members(pairs: usize) -> usize
    requires { pairs < 41 }
    ensures { result ≡ members pairs }
{
    let tapes = tapes_for(pairs);
    if tapes == 1 {
        return pairs.max(1);
    }
    pairs - 3 * tapes
}

// How many symbols the read set of a tape has: as many as those of the others, or one more.
fn set_size(pairs: usize, tape: usize) -> usize
    requires { (pairs < 41)
        × (tape < 5) }
    ensures { result ≡ set_size pairs tape }
{
    (members(pairs) + tape) / tapes_for(pairs)
}

// How many rules the line expands to: the product of the sizes of its sets.
fn number_for(pairs: usize) -> u64
    requires { pairs < 41 }
    ensures { result ≡ number_for pairs }
{
    let mut number = 1;
    for tape in 0..tapes_for(pairs) {
        number *= set_size(pairs, tape) as u64;
    }
    number
}

// Whether a line is written for n bytes, where the output has room for so many.
fn is_answered(n: u64, room: usize) -> bool
    ensures { result ≡ is_answered n room }
{
    SHORTEST <= n && n <= LONGEST && n <= room as u64
}

// A rule line of at most n bytes at the front of the output, and how many rules it expands to: as many as any line of at most n
// bytes that reads. Refused, and the output as it was, if n is below 15 or above 96 or the output is shorter than n bytes.
pub fn longest(n: u64, output: &mut [u8]) -> Result<BestLine, LongestRefusal>
    ensures outcome { (result, output.new) ≡ longest n output.old }
    ensures most { IfOk result (λ l. Most n (take l.length output.new) l.rules) }
{
    if !is_answered(n, output.len()) {
        return Err(LongestRefusal::OutOfRange);
    }
    let pairs = (n - SHORTEST) as usize / 2;
    let length = text::line(pairs, output);
    Ok(BestLine {
        length,
        rules: number_for(pairs),
    })
}

// An answer in words: its number, the length of the line, and the number of rules, low word first.
fn answer_words(answer: Result<BestLine, LongestRefusal>) -> [u32; ANSWER_WORDS]
    requires { IfOk answer (λ l. l.length ≤ 96) }
    ensures { result ≡ answer_words answer }
{
    match answer {
        Ok(BestLine { length, rules }) => [
            0,
            length as u32,
            (rules % (1 << 32)) as u32,
            (rules >> 32) as u32,
        ],
        Err(refusal) => [refusal.number(), 0, 0, 0],
    }
}

// The words of an answer at the front of a row that is lent for them, where it has room for them all. Answers the number, which
// is the first of them.
fn give(words: &[u32; ANSWER_WORDS], row: &mut [u32]) -> u32
    ensures { (result ≡ get_or words.now 0 0)
        × (row.new ≡ stored words.now row.old) }
{
    if let Some(front) = row.first_chunk_mut() {
        *front = *words;
    }
    words[0]
}

// The same for callers in other languages: the answer in four words, and its number. A shorter row is left as it is.
#[unsafe(no_mangle)]
pub extern "C" fn pevzoncs_longest(n: u64, output: &mut [u8], answer: &mut [u32]) -> u32
    ensures outcome { (result, output.new, answer.new) ≡ given (longest n output.old) answer.old }
    ensures most { IfOk (longest n output.old).0 (λ l. Most n (take l.length output.new) l.rules) }
{
    let found = longest(n, output);
    give(&answer_words(found), answer)
}
