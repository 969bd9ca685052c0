// A log that is being written.
ghost use Rattle.std.specs.Prelude.{◌≡◌, ◌+◌, ◌<◌, ◌^◌, [], ◌∷◌};
ghost use Rattle.diag.specs.Log.{logged};
ghost use Rattle.diag.specs.Appends.{Appends, CanCount};

use crate::Diagnostic;

// The words of a log, and how many diagnostics it was given. Each is stored where there is room for its record and counted in any
// case, so that a log of no words only counts.
#[derive(Drop)]
pub struct Log<'a> {
    row: &'a mut [u32],
    count: usize,
}

impl<'a> Log<'a> {
    // A log that was given none.
    pub fn new(row: &'a mut [u32]) -> Log<'a>
        ensures same_row { result.row.ghost_name ≡ row.entry.ghost_name }
        ensures none { logged result.row.now result.count ≡ logged row.old 0 }
    {
        Log { row, count: 0 }
    }

    // How many diagnostics a log was given.
    pub fn count(&self) -> usize
        ensures { result ≡ self.now.count }
    {
        self.count
    }

    // Appends a diagnostic to those before it.
    pub fn append(&mut self, d: Diagnostic)
        requires { CanCount self.old 1 }
        ensures { Appends self.old self.new (d ∷ []) }
    {
        self.count = crate::append(self.row, self.count, d);
    }
}
