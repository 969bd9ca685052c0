// Numbers for the names of a machine that was read: equal names have the same number, and others not; and for each number the
// first state of that name. Tokens, first equal words and numbers are rows of one lent row.
#![tactic(auto)]

ghost use Rattle.std.specs.Prelude.{◌≡◌, ◌≤◌, length};
ghost use Rattle.lexer.specs.Words.{max_bytes, work_needed};
ghost use Rattle.tokens.specs.Listed.{tokens_of};
ghost use Rattle.form_theorems.specs.Read.{ReadAs};
ghost use Rattle.runner_names.specs.Rows.{Rising, AtStarts, HaveNumbers, FirstStates};
ghost use Rattle.runner_names.specs.Numbers.{WordsNumbered, NamesNumbered};

use assembler_names::intern;
use lexer::{TOKEN_WORDS, tokenize};
use machine::Head;
use sheet_view::state::state_at;
use tokens::Tokens;

// Work is divided into rows of one word for each byte of the text and one for its end. So many of them stand before the row of
// first equal words.
const ROWS_BEFORE_FIRST_EQUAL: usize = TOKEN_WORDS;

// How many of these rows stand before that of the numbers.
pub const ROWS_BEFORE_NUMBERS: usize = ROWS_BEFORE_FIRST_EQUAL + 1;

// What says that no state has a name.
pub const NO_STATE: u32 = u32::MAX;

// Puts the word of each token where the token begins.
fn put_at_starts(tokens: &Tokens, words: &[u32], row: &mut [u32])
    requires rising { Rising (tokens_of tokens.now) (length row.old) }
    requires words { length (tokens_of tokens.now) ≤ length words.now }
    ensures { AtStarts (tokens_of tokens.now) words.now row.new (length (tokens_of tokens.now)) }
{
    for x in 0..tokens.len() {
        row[tokens.known(x).start as usize] = words[x];
    }
}

// A number for each word of a text: the first equal word, where the word begins.
fn number_words(text: &[u8], work: &mut [u32])
    requires short { length text.now ≤ max_bytes }
    requires room { work_needed (length text.now) ≤ length work.old }
    ensures { WordsNumbered text.now work.new }
{
    let base = text.len() + 1;
    let count = tokenize(text, work);
    intern(
        text,
        work,
        count,
        ROWS_BEFORE_FIRST_EQUAL * base,
        ROWS_BEFORE_NUMBERS * base,
        base,
    );
    let (front, numbers) = work.split_at_mut(ROWS_BEFORE_NUMBERS * base);
    let (words, firsts) = front.split_at(ROWS_BEFORE_FIRST_EQUAL * base);
    put_at_starts(&Tokens { words, count }, firsts, numbers);
}

// For each number the first state of a sheet that has it: the states are gone through from the last on.
fn put_states(sheet: &[u32], states: u32, numbers: &[u32], row: &mut [u32])
    requires { HaveNumbers sheet.now numbers.now states (length row.old) }
    ensures { FirstStates sheet.now numbers.now 0 states row.new }
{
    row.fill(NO_STATE);
    for i in (0..states).rev() {
        let name = state_at(sheet, i).name;
        row[numbers[name.start as usize] as usize] = i;
    }
}

// The numbers of the names of the machine that a text was read as, and the first states. Work is overwritten.
pub fn number(text: &[u8], head: Head, sheet: &[u32], work: &mut [u32])
    requires read { ReadAs text.now head sheet.now }
    requires room { work_needed (length text.now) ≤ length work.old }
    ensures { NamesNumbered text.now work.new }
{
    number_words(text, work);
    let base = text.len() + 1;
    let (front, numbers) = work.split_at_mut(ROWS_BEFORE_NUMBERS * base);
    put_states(sheet, head.counts.states, numbers, &mut front[..base]);
}
