// The diagnostics of an assembled text in the log, in the order in which they are found.
#![tactic(auto)]

ghost use Rattle.std.specs.Prelude.{◌≡◌, ◌++◌, ◌+◌, ◌≤◌, length, drop};
ghost use Rattle.diag_search.specs.Pending.{pending};
ghost use Rattle.diag_search.specs.Stands.{Stands};

use diag::Diagnostic;
use diag_search::Search;

// Stores the diagnostics that a search has yet to find, `errors` of them, at the front of the log.
// The log is not cut to `errors` records, since the contract says what stands behind them.
pub fn gather(text: &[u8], work: &mut [u32], search: Search, log: &mut [Diagnostic], errors: usize)
    requires { Stands text.now work.old search
        × (errors ≡ length (pending text.now work.old search))
        × (errors ≤ length log.old) }
    ensures { log.new ≡ pending text.now work.old search ++ drop errors log.old }
{
    let mut search = search;
    for i in 0..errors {
        let found = diag_search::next(text, work, search);
        diag_records::append(log, i, found.diagnostic);
        search = found.search;
    }
}
