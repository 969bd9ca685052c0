// Characters noted in a row of words, each once.
ghost use Rattle.std.specs.Prelude.{◌≡◌, true, [], ◌∷◌, ◌-◌, ◌<◌, eqb, length, None, IfSome, IsTrue};
ghost use Rattle.language.specs.Infer.{member};
ghost use Rattle.infer_symbols.specs.Codes.{hints, slot, shown, Looked};

// How many hints there are at most.
const MOST: usize = 2048;

// How many hints there are for a text of `size` bytes: a short one has few, which are soon cleared.
#[tactic(auto, unfolding(crate::specs::Codes::hints))]
fn hints(size: usize) -> usize
    ensures { result ≡ hints size }
{
    (size / 2).min(MOST)
}

// How far from the last word a character's hint stands: each admitted character has a place of its own.
#[tactic(auto, unfolding(crate::specs::Codes::slot))]
fn slot(c: u32) -> usize
    ensures value { result ≡ slot c }
    ensures low { result < 2048 }
{
    let x = c as usize;
    (x + x / 8192 * 768) % MOST
}

// The characters that are noted: the first words of the row. Its last words are their hints, which say which ones they are, so
// that they need not be looked through. Where there is no room for one more, none is noted.
#[derive(Drop)]
pub struct Codes<'a> {
    row: &'a mut [u32],
    hints: usize,
    count: usize,
}

impl<'a> Codes<'a> {
    ghost use Rattle.infer_symbols.specs.Notes.{listed, lent_row, Sound, Notes};

    // No character of a text of `size` bytes: the hints are cleared.
    pub(crate) fn new(row: &'a mut [u32], size: usize) -> Codes<'a>
        ensures empty { listed result ≡ [] }
        ensures sound { Sound result }
        ensures many { result.hints ≡ hints size }
        ensures size { length result.row.now ≡ length row.old }
        ensures same_row { lent_row result ≡ row.entry.ghost_name }
    {
        let hints = hints(size);
        let start = row.len().saturating_sub(hints);
        row[start..].fill(0);
        Codes {
            row,
            hints,
            count: 0,
        }
    }

    // How many are noted.
    pub(crate) fn count(&self) -> usize
        ensures { result ≡ self.now.count }
    {
        self.count
    }

    // Where a character's hint stands, if it is looked at: there is one, and room for a character more in front of all hints.
    fn hint(&self, c: u32) -> Option<usize>
        ensures some { IfSome result (λ i. Looked self.now.hints self.now.count self.now.row.now c
            × (i ≡ length self.now.row.now - 1 - slot c)) }
        ensures none { result ≡ None → Looked self.now.hints self.now.count self.now.row.now c → ⊥ }
    {
        let s = slot(c);
        if self.hints <= s || self.row.len().saturating_sub(self.count) <= self.hints {
            return None;
        }
        Some(self.row.len() - 1 - s)
    }

    // Whether a character's hint shows that it is noted; false says nothing of that.
    pub(crate) fn is_seen(&self, c: u32) -> bool
        ensures value { result ≡ shown self.now.hints self.now.count self.now.row.now c }
        ensures noted { IsTrue result → Sound self.now → (c ≡ 0 → ⊥) → member eqb (listed self.now) c ≡ true }
    {
        match self.hint(c) {
            Some(i) => self.row[i] == c,
            None => false,
        }
    }

    // Whether a character is noted, as its hint says: one that is 0 says that it is not. If it
    // is another's, the character is looked for.
    fn contains(&self, c: u32, hint: Option<usize>) -> bool
        requires { IfSome hint (λ i. Looked self.now.hints self.now.count self.now.row.now c
            × (i ≡ length self.now.row.now - 1 - slot c)) }
        ensures { Sound self.now → result ≡ member eqb (listed self.now) c }
    {
        if c != 0 {
            if let Some(i) = hint {
                let x = self.row[i];
                if x == c || x == 0 {
                    return x == c;
                }
            }
        }
        let n = self.count.min(self.row.len());
        self.row[..n].contains(&c)
    }

    // One character more, if it is not there yet. A hint that is another's is left as it is.
    pub(crate) fn note(&mut self, c: u32)
        ensures { Notes (c ∷ []) self.old self.new }
    {
        if self.row.len() <= self.count {
            return;
        }
        let hint = self.hint(c);
        if self.contains(c, hint) {
            return;
        }
        if let Some(i) = hint {
            if self.row[i] == 0 {
                self.row[i] = c;
            }
        }
        self.row[self.count] = c;
        self.count += 1;
    }
}
