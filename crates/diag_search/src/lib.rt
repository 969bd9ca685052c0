// The diagnostics of an assembled text one at a time, in the order in which the passes of assembly find them.
#![tactic(auto)]

ghost use Rattle.std.specs.Prelude.{◌≡◌, ◌∷◌, ◌≤◌, length};
ghost use Rattle.assembler.specs.Assembled.{Tokenized};
ghost use Rattle.diag_search.specs.Cursor.{moved, tallied};
ghost use Rattle.diag_search.specs.Pending.{pending};
ghost use Rattle.diag_search.specs.Stands.{Stands, Started};

use assembler::rules::Tally;
use diag::{DIAGNOSTIC_WORDS, Diagnostic};
use parser::DECLARATIONS;

mod lines;
mod passes;

// The passes, in their order.
#[derive(Clone, Copy, Debug, PartialEq, Eq)]
pub enum Pass {
    Failures,
    Names,
    Finals,
    Rules,
}

// How far a search has come: what assembly found, the pass, the index of the token to look at, and the rules so far. What
// assembly found is no Assembled here: no function takes it whole on the way, so that steps, contracts and definitions would only
// name one field more; who enters puts it together again.
#[derive(Clone, Copy)]
pub struct Search {
    pub count: usize,
    pub first: [u32; DECLARATIONS],
    pub errors: usize,
    pub rules: usize,
    pub pass: Pass,
    pub at: usize,
    pub tally: Tally,
}

// A diagnostic, and the search behind it.
#[derive(Clone, Copy)]
pub struct Found {
    pub search: Search,
    pub diagnostic: Diagnostic,
}

// One step of a search: the search behind it, and a diagnostic if one was found.
#[derive(Clone, Copy)]
pub struct Step {
    pub search: Search,
    pub found: Option<Diagnostic>,
}

impl Search {
    // The search at a token of a pass.
    pub(crate) fn moved(mut self, pass: Pass, at: usize) -> Self
        ensures { result ≡ moved self pass at }
    {
        self.pass = pass;
        self.at = at;
        self
    }

    // The search with the rules so far.
    pub(crate) fn tallied(mut self, tally: Tally) -> Self
        ensures { result ≡ tallied self tally }
    {
        self.tally = tally;
        self
    }
}

// Assembles the description whose tokens stand in work; the search at its beginning.
// The tokens are no `Tokens`, since work is lent whole: for the row of first equal words and the marks behind them too.
pub fn start(text: &[u8], work: &mut [u32], count: usize) -> Search
    requires { Tokenized text.now count work.old }
    ensures { Started text.now count work.old work.new result }
{
    let mut log = [0u32; DIAGNOSTIC_WORDS];
    let a = assembler::assemble(text, work, count, &mut log);
    let first = a.first;
    Search {
        count,
        first,
        errors: a.errors,
        rules: a.rules,
        pass: Pass::Failures,
        at: 0,
        tally: Tally {
            rules: 0,
            cut: false,
        },
    }
}

// The next diagnostic. How many steps find nothing on the way to it is not known before: no range counts them.
pub fn next(text: &[u8], work: &mut [u32], s: Search) -> Found
    requires { Stands text.now work.old s
        × (1 ≤ length (pending text.now work.old s)) }
    ensures { (pending text.now work.old s ≡ result.diagnostic ∷ pending text.now work.new result.search)
        × Stands text.now work.new result.search
        × (length work.new ≡ length work.old) }
{
    let mut search = s;
    loop {
        let step = passes::step(text, work, search);
        search = step.search;
        if let Some(diagnostic) = step.found {
            return Found { search, diagnostic };
        }
    }
}
