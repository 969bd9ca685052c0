// The entries of a batch, as they are lent.
ghost use Rattle.std.specs.Prelude.{◌≡◌, ◌*◌, ◌&&◌, leb, length};
ghost use Rattle.running.specs.Batch.{lengths_fit, entry_size};

use runner_answer::words::ENTRY_WORDS;

// Their texts back to back, and the length of each.
#[derive(Clone, Copy)]
pub(crate) struct Entries<'a> {
    pub texts: &'a [u8],
    pub lengths: &'a [u32],
}

impl Entries<'_> {
    // Whether the lengths fit into the texts. Each is taken from what is left, so that no sum wraps.
    fn lengths_fit(&self) -> bool
        ensures { result ≡ lengths_fit self.now.lengths.now (length self.now.texts.now) }
    {
        let mut left = self.texts.len();
        for length in self.lengths {
            let own = *length as usize;
            if left < own {
                return false;
            }
            left -= own;
        }
        true
    }

    // Whether enough was lent, with so many words for the answers.
    pub(crate) fn enough(&self, answers: usize) -> bool
        ensures { result ≡ (lengths_fit self.now.lengths.now (length self.now.texts.now)
            && leb (entry_size * length self.now.lengths.now) answers) }
    {
        self.lengths_fit() && self.lengths.len() <= answers / ENTRY_WORDS
    }
}
