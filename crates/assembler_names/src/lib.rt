// Equal names: for each word the first that equals it, found by an index of the names.
// The words and the row of first equal words are two parameters: in one struct the words would be lent to be written as the
// row is, and each store could change them.
#![tactic(auto)]

ghost use Rattle.std.specs.Prelude.{◌≡◌, ◌+◌, ◌*◌, ◌<◌, ◌≤◌, ◌^◌, length, OnOk};
ghost use Rattle.tokens.specs.Listed.{tokens_of};
ghost use Rattle.assembler_names.specs.Rows.{rows, Kept};
ghost use Rattle.assembler_names.specs.Names.{Interned, FirstsOf};
ghost use Rattle.assembler_names.specs.Words.{count_of, HasRoom, AllFirsts};

mod order;
mod table;
mod words;

use table::{Full, Layout};
use tokens::Tokens;
use words::Words;

// The least number of free words with which a table is made.
const LEAST: usize = 128;
// Sizes: how many slots the small table has to begin in, and in how many a name is looked for there.
const SMALL: usize = 8192;

const SMALL_WINDOW: usize = 32;
// In how many slots a name is looked for in the large table.
const WINDOW: usize = 128;

// The row of first equal words by a table with at most so many slots to begin in and so long a window.
fn by_table(
    words: &Words,
    row: &mut [u32],
    slots: &mut [u32],
    most: usize,
    longest: usize,
) -> Result<(), Full>
    requires row { HasRoom words.now row.old }
    requires slots { 128 ≤ length slots.old }
    requires most { 288 ≤ most }
    requires narrow { most < 2 ^ 34 }
    ensures { OnOk result (AllFirsts words.now row.new) }
{
    let layout = Layout::of(slots.len(), most, longest);
    let used = layout.span + layout.window;
    layout.index(words, row, &mut slots[..used])
}

// The row of first equal words where they stand in order, or else by a small table, which is soon emptied, or by a large
// one: one slot for each token is enough for a list, where every second is a comma, and is less memory to look things up
// in; where most tokens are words, two for each.
fn by_tables(words: &Words, row: &mut [u32], slots: &mut [u32]) -> Result<(), Full>
    requires row { HasRoom words.now row.old }
    requires slots { 128 ≤ length slots.old }
    ensures { OnOk result (AllFirsts words.now row.new) }
{
    let count = words.count();
    if order::rising(words, row)
        || by_table(words, row, slots, SMALL, SMALL_WINDOW).is_ok()
        || by_table(words, row, slots, count + SMALL, WINDOW).is_ok()
    {
        return Ok(());
    }
    by_table(words, row, slots, 2 * count + SMALL, WINDOW)
}

// The row of first equal words of the tokens: where there are few free words, or a window of
// each table is full, the words are sorted.
fn give(text: &[u8], tokens: &Tokens, row: &mut [u32], free: &mut [u32])
    requires few { tokens.now.count < 2 ^ 31 }
    requires row { length (tokens_of tokens.now) ≤ length row.old }
    requires free { length (tokens_of tokens.now) ≤ length free.old }
    ensures { FirstsOf text.now (tokens_of tokens.now) (length (tokens_of tokens.now)) row.new }
{
    let words = Words {
        text,
        tokens: *tokens,
    };
    if free.len() < LEAST || by_tables(&words, row, free).is_err() {
        order::by_order(&words, row, free);
    }
}

// The row of first equal words, from the word `firsts_at` on; `size` words from `free_at` on are free. A row and offsets, since
// tokens, firsts and free words are parts of one lent row.
pub fn intern(
    text: &[u8],
    work: &mut [u32],
    count: usize,
    firsts_at: usize,
    free_at: usize,
    size: usize,
)
    requires { (4 * count ≤ firsts_at)
        × (firsts_at + count ≤ free_at)
        × (free_at + size ≤ length work.old)
        × (count ≤ size)
        × (count < 2 ^ 31) }
    ensures { Kept firsts_at work.old work.new
        × Interned text.now (rows count work.old) firsts_at work.new }
{
    let (front, free) = work.split_at_mut(free_at);
    let (words, row) = front.split_at_mut(firsts_at);
    give(text, &Tokens { words, count }, row, &mut free[..size]);
}
