// The program `run` on the cases that are stored in data/: the busy beavers and the other examples, each stop, one to three
// tapes, heads on both sides of position 0, inputs, a run of several slices, the longest text, more cells than there are, 1,024
// diagnostics, and each refusal that it can give. Its work is long enough for every text that it takes, so it never refuses
// with 2.
#![tactic(auto)]

use run_arguments::Limits;
use std::fs;
use std::io::{self, Write};
use std::rt::Files;

// Bytes of the row for a text, as the program's.
const TEXT_BYTES: usize = 69632;

// The file of a case, the steps that it may do at most, and its cells.
const CASES: [(&str, u64, usize); 29] = [
    ("beaver-2.tm", 100, 64),
    ("beaver-3.tm", 100, 64),
    ("beaver-4.tm", 1_000, 64),
    ("beaver-4.tm", 106, 64),
    ("beaver-4.tm", 1_000, 16),
    ("palindromes.tm", 100, 32),
    ("copy-two-tapes.tm", 100, 64),
    ("unary-addition.tm", 100, 32),
    ("below-zero.tm", 3, 12),
    ("three-tapes.tm", 100, 13),
    ("three-tapes.tm", 2, 100),
    ("stuck.tm", 5, 4),
    ("empty.tm", 5, 4),
    ("empty.tm", 5, 1_000_000),
    ("input.tm", 0, 8),
    ("left-edge.tm", 100, 8),
    ("for-ever.tm", 250_000_000, 2),
    ("bytes-65536.tm", 100, 262144),
    ("bytes-65537.tm", 100, 64),
    ("refused-3.tm", 100, 64),
    ("refused-4.tm", 100, 64),
    ("refused-5.tm", 100, 64),
    ("refused-6.tm", 100, 64),
    ("faults.tm", 100, 64),
    ("records-1024.tm", 100, 64),
    ("refused-8.tm", 100, 64),
    ("refused-9.tm", 100, 64),
    ("refused-10.tm", 100, 9),
    ("stuck.tm", 100, 1),
];

// The name of a case and what is printed of it, neither where the case cannot be read.
fn show<W: Write, P: Write>(
    rt: &(impl Files + Print),
    out: &mut W,
    progress: &mut P,
    name: &str,
    limits: Limits,
) -> io::Result<()> {
    let mut text = [0; TEXT_BYTES];
    let n = program_input::fill(&mut fs::open(rt, name)?, &mut text)?;
    println!(rt; "{name}")?;
    run_listing::print(out, progress, &text[..n], limits)
}

fn main(rt: HostRuntime) -> io::Result<()> {
    let mut out = rt.stdout();
    // The words for standard error are printed too, so that the gate holds them.
    let mut progress = rt.stdout();
    for (name, steps, cells) in CASES {
        show(&rt, &mut out, &mut progress, name, Limits { steps, cells })?;
    }
    Ok(())
}
