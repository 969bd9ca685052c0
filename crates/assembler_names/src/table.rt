// A table in which names are looked up, from their hashes on.
ghost use Rattle.std.specs.Prelude.{◌≡◌, ◌+◌, ◌*◌, ◌-◌, ◌/◌, ◌%◌, ◌<◌, ◌≤◌, ◌^◌, length, get_or, set, OnOk};
ghost use Rattle.std.specs.List.{position};
ghost use Rattle.lexer.specs.Places.{part};
ghost use Rattle.assembler_names.specs.Index.{step, rest_of, hash_from, own_slot, hashed_slot, stops, filled};
ghost use Rattle.assembler_names.specs.Words.{tokens_of, count_of, HasRoom, AllFirsts};

use crate::words::Words;
use lexer::kind;
use tokens::Token;

// The hash is counted modulo this prime, so that no two names are alike by how they are made.
const PRIME: usize = 1073741789;
// The factor of the hash.
const FACTOR: usize = 663608941;
// What a hash is below: 2 to the 30th.
const SCALE: usize = 1073741824;
// A size: in how many slots names that differ only in their last byte begin, since such names often follow one another.
const NEAR: usize = 32;
// How many slots at most are kept for names of one byte.
const LETTERS: usize = 128;

// The hash h with a number behind it.
fn step(h: usize, q: usize) -> usize
    requires hash { h < 2 ^ 30 }
    requires number { q < 2 ^ 32 }
    ensures value { result ≡ step h q }
    ensures low { result < 2 ^ 30 }
{
    (h + q) * FACTOR % PRIME
}

// The last bytes, at most three, as one number.
fn rest(name: &[u8]) -> usize
    ensures value { result ≡ rest_of name.now }
    ensures low { result < 2 ^ 32 }
{
    match name {
        [a] => usize::from(*a),
        [a, b] => u32::from_le_bytes([*a, *b, 0, 0]) as usize,
        [a, b, c] => u32::from_le_bytes([*a, *b, *c, 0]) as usize,
        _ => 0,
    }
}

// The hash of a name.
fn hash(name: &[u8]) -> usize
    ensures value { result ≡ hash_from 0 name.now }
    ensures low { result < 2 ^ 30 }
{
    let mut h = 0;
    let mut left = name;
    while let [a, b, c, d, behind @ ..] = left {
        h = step(h, u32::from_le_bytes([*a, *b, *c, *d]) as usize);
        left = behind;
    }
    step(h, rest(left))
}

// Whether the search for a name ends at a slot that holds v. A slot is a word of the lent work, and so a number: 0 where it is
// empty, else 1 more than the index of a token.
fn stops(words: &Words, name: &[u8], v: u32) -> bool
    ensures { result ≡ stops words.now.text.now (tokens_of words.now) name.now v }
{
    v == 0 || words.has_name(v as usize - 1, name)
}

// Looks for a name in a window of slots: the distance at which the search ends.
fn probe(words: &Words, window: &[u32], name: &[u8]) -> Option<usize>
    ensures { result ≡ position (stops words.now.text.now (tokens_of words.now) name.now) window.now }
{
    window.iter().position(|&v| stops(words, name, v))
}

// Stores the word x in its slot, if that is empty, and the slot's word as the first that equals x. A filled slot is not written,
// so that the next look at it need not wait for a store.
#[tactic(auto, unfolding(crate::specs::Index::filled))]
fn store(row: &mut [u32], slots: &mut [u32], slot: usize, x: usize)
    requires slot { slot < length slots.old }
    requires word { x < length row.old }
    requires few { x < 2 ^ 31 }
    ensures slots { slots.new ≡ set slots.old slot (filled (get_or slots.old slot 0) x) }
    ensures row { row.new ≡ set row.old x (filled (get_or slots.old slot 0) x - 1) }
{
    let held = slots[slot];
    if held == 0 {
        slots[slot] = x as u32 + 1;
        row[x] = x as u32;
        return;
    }
    row[x] = held - 1;
}

// A window of slots is full.
#[derive(Clone, Copy, Debug, PartialEq, Eq)]
pub(crate) struct Full;

// How a table is laid out: how many slots are kept for names of one byte, in how many a
// search may begin, and over how many it goes.
#[derive(Clone, Copy)]
pub(crate) struct Layout {
    letters: usize,
    pub span: usize,
    pub window: usize,
    ghost begins: { letters + 32 ≤ span },
    ghost narrow: { span < 2 ^ 34 },
}

impl Layout {
    ghost use Rattle.assembler_names.specs.Indexed.{Indexed};

    // The layout of a table of so many slots, with at most `most` of them to begin in and a window of no more than `longest`.
    pub(crate) fn of(size: usize, most: usize, longest: usize) -> Self
        requires size { 128 ≤ size }
        requires most { 288 ≤ most }
        requires narrow { most < 2 ^ 34 }
        ensures { result.span + result.window ≤ size }
    {
        let window = (size / 8).min(longest);
        Self {
            letters: (size / 2).min(LETTERS),
            span: (size - window).min(most),
            window,
        }
    }

    // The slot of its own that the name of a token has, if it is one byte, and one of the letters.
    fn own_slot(self, words: &Words, t: Token) -> Option<usize>
        ensures { result ≡ own_slot self.letters (part words.now.text.now t.start t.end) }
    {
        match words.letter(t) {
            Some(c) if usize::from(c) < self.letters => Some(usize::from(c)),
            _ => None,
        }
    }

    // Where other names are looked for first: their hash is scaled to the slots behind those of the letters.
    fn hashed_slot(self, name: &[u8]) -> usize
        ensures value { result ≡ hashed_slot self.letters self.span name.now }
        ensures low { result < self.span }
    {
        let Some((last, front)) = name.split_last() else {
            return self.letters;
        };
        self.letters
            + hash(front) * (self.span - self.letters - NEAR) / SCALE
            + usize::from(*last) % NEAR
    }

    // Enters the token x, if it is a word.
    fn enter(self, words: &Words, row: &mut [u32], slots: &mut [u32], x: usize) -> Result<(), Full>
        requires inside { x < count_of words.now }
        requires row { HasRoom words.now row.old }
        requires slots { self.span + self.window ≤ length slots.old }
        requires before { Indexed words.now self x row.old slots.old }
        ensures { OnOk result (Indexed words.now self (x + 1) row.new slots.new) }
    {
        let t = words.token(x);
        if t.kind != kind::WORD {
            return Ok(());
        }
        if let Some(slot) = self.own_slot(words, t) {
            store(row, slots, slot, x);
            return Ok(());
        }
        let name = words.name(t);
        let at = self.hashed_slot(name);
        let Some(d) = probe(words, &slots[at..at + self.window], name) else {
            return Err(Full);
        };
        store(row, slots, at + d, x);
        Ok(())
    }

    // The row of first equal words by a table whose slots these are.
    pub(crate) fn index(self, words: &Words, row: &mut [u32], slots: &mut [u32]) -> Result<(), Full>
        requires row { HasRoom words.now row.old }
        requires slots { self.span + self.window ≤ length slots.old }
        ensures { OnOk result (AllFirsts words.now row.new) }
    {
        // A copy, which no store can change: it stays in registers.
        let words = *words;
        slots.fill(0);
        for x in 0..words.count() {
            self.enter(&words, row, slots, x)?;
        }
        Ok(())
    }
}
