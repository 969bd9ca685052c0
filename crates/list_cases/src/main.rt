// The list program on the cases that are stored in data/: the samples P1 to P11 of paper 01, every refusal that it can give, two
// tapes, texts on both sides of 2,048 bytes and of 16,384 words, of 1,023 and of 1,024 diagnostics, which no text of 2,048 bytes
// exceeds, a listing above a megabyte, and faults behind characters of two and three bytes, a tab and a carriage return.
// Its log and its work are long enough for every text of 2,048 bytes, so it never refuses with 2 or 5.
#![tactic(auto)]

use std::fs;
use std::io::{self, Write};
use std::rt::Files;

// Paper 01, P1 to P11; two tapes, final states, refusals, the limits, and columns.
const CASES: [&str; 27] = [
    "p01-two-rules.tm",
    "p01-fault.tm",
    "p02-empty-set.tm",
    "p03-tapes-255.tm",
    "p03-tapes-0.tm",
    "p03-tapes-256.tm",
    "p04-tapes-65-bits.tm",
    "p05-quoted-quote.tm",
    "p06-lone-quote.tm",
    "p07-open-string.tm",
    "p08-direction.tm",
    "p09-arity.tm",
    "p10-twice.tm",
    "p11-empty.tm",
    "two-tapes.tm",
    "final-states.tm",
    "refused-3.tm",
    "refused-4.tm",
    "refused-6.tm",
    "bytes-2048.tm",
    "bytes-2049.tm",
    "sheet-16384.tm",
    "sheet-16385.tm",
    "records-1023.tm",
    "records-1024.tm",
    "megabyte.tm",
    "columns.tm",
];

// The name of a case and its listing, neither where the case cannot be read.
fn show<W: Write>(rt: &(impl Files + Print), out: &mut W, name: &str) -> io::Result<()> {
    let mut text = [0; 4096];
    let n = program_input::fill(&mut fs::open(rt, name)?, &mut text)?;
    println!(rt; "{name}")?;
    listing::print(out, &text[..n])
}

fn main(rt: HostRuntime) -> io::Result<()> {
    let mut out = rt.stdout();
    for name in CASES {
        show(&rt, &mut out, name)?;
    }
    Ok(())
}
