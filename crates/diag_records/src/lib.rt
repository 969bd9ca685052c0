// The log as a slice of diagnostic records. A log is the caller's whole row, and how much of it is in use stands beside it: each
// contract says too that what is behind stays as it was.
#![tactic(auto)]

ghost use Rattle.std.specs.Prelude.{◌≡◌, ◌++◌, ◌+◌, ◌*◌, ◌<◌, ◌≤◌, ◌^◌, length, set, replicate, take, drop};
ghost use Rattle.diag.specs.Log.{flat, sort};
ghost use Rattle.diag_records.specs.Unused.{unused};

use diag::{Diagnostic, Span};

// The record that is all zero.
pub const UNUSED: Diagnostic = Diagnostic {
    code: 0,
    span: Span { start: 0, end: 0 },
    related: Span { start: 0, end: 0 },
};

// Stores a diagnostic behind the `count` before it if there is room for it, and counts it in any case.
// A twin of diag's, which promises a log's words, as the crates above need them: one body for both would be longer than the two.
pub fn append(log: &mut [Diagnostic], count: usize, d: Diagnostic) -> usize
    requires { count + 1 < 2 ^ 64 }
    ensures { (result ≡ count + 1)
        × (log.new ≡ set log.old count d) }
{
    if count < log.len() {
        log[count] = d;
    }
    count + 1
}

// Sets every record to zero. More than `fill`: what zero is, is said here once for the callers.
pub fn clear(log: &mut [Diagnostic])
    ensures { log.new ≡ replicate (length log.old) unused }
{
    log.fill(UNUSED);
}

// Copies the first `count` records to the front of a row of words.
pub fn spill(log: &[Diagnostic], words: &mut [u32], count: usize)
    requires { (count ≤ length log.now)
        × (5 * count ≤ length words.old) }
    ensures { words.new ≡ flat (take count log.now) ++ drop (5 * count) words.old }
{
    diag::copy_records(log, words, 0, count);
}

// Sorts the first `count` records by where they start, equal starts in their order; `words` has room for as many.
pub fn sort(log: &mut [Diagnostic], count: usize, words: &mut [u32])
    requires { (count ≤ length log.old)
        × (5 * count ≤ length words.old) }
    ensures { log.new ≡ sort (take count log.old) ++ drop count log.old }
{
    diag::sort_records(log, count, words);
}
