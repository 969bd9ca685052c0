// Words stored on the sheet: each where there is room, and counted in any case, so that one body counts and writes.
ghost use Rattle.std.specs.Prelude.{◌≡◌, ◌<◌, ◌∷◌, [], length};
ghost use Rattle.language.specs.Layout.{place_words};

use diag::Span;

// Words in the place of those that a row holds.
// By `copy_from_slice` they would stand in memory first: 9 in a hundred more instructions
// for a text of quoted symbols (glyphs-set).
fn store(row: &mut [u32], words: &[u32])
    requires { length row.old ≡ length words.now }
    ensures { row.new ≡ words.now }
{
    for (i, &x) in words.iter().enumerate() {
        row[i] = x;
    }
}

// Where words are stored: the row lent for them, and the index where the next goes. With an empty
// row, `&mut row[..0]`, they are only counted.
// Crate emit's Output is this of bytes: one struct for both would share the fields and a test for room, and
// what is stored would stay defined twice.
#[derive(Drop)]
pub struct Sheet<'a> {
    pub row: &'a mut [u32],
    pub at: usize,
}

impl<'a> Sheet<'a> {
    ghost use Rattle.sheet.specs.Puts.{held, lent_row, Puts};

    // The row from the index `at` on.
    pub fn new(row: &'a mut [u32], at: usize) -> Self
        ensures holds { ((held result).row ≡ row.old)
            × ((held result).at ≡ at) }
        ensures same_row { lent_row result ≡ row.entry.ghost_name }
    {
        Self { row, at }
    }

    // Where the next word goes.
    pub fn at(&self) -> usize
        ensures { result ≡ (held self.now).at }
    {
        self.at
    }

    // A word.
    pub(crate) fn word(&mut self, x: u32)
        ensures { Puts (x ∷ []) self.old self.new }
    {
        if self.at < self.row.len() {
            self.row[self.at] = x;
        }
        self.at = self.at.saturating_add(1);
    }

    // A few words: at once where there is room for all.
    pub fn words<const N: usize>(&mut self, words: &[u32; N])
        requires { 0 < N }
        ensures { Puts words.now self.old self.new }
    {
        if self.at < self.row.len().saturating_sub(N - 1) {
            let end = self.at + N;
            store(&mut self.row[self.at..end], words);
            self.at = end;
            return;
        }
        for &x in words {
            self.word(x);
        }
    }

    // A place.
    #[tactic(auto, using(crate::proofs::Puts::chain), unfolding(crate::specs::Puts::put))]
    pub fn place(&mut self, p: Span)
        ensures { Puts (place_words p) self.old self.new }
    {
        self.word(p.start);
        self.word(p.end);
    }

    // A character and its place.
    #[tactic(auto, using(crate::proofs::Puts::chain), unfolding(crate::specs::Puts::put))]
    pub fn symbol(&mut self, x: u32, p: Span)
        ensures { Puts (x ∷ place_words p) self.old self.new }
    {
        self.word(x);
        self.place(p);
    }
}
