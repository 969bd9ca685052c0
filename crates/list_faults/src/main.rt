// The list program on an input that fails in the middle of a text: behind its front comes a folder, which can be opened and not
// read. Nothing is listed, std says the error on standard error, and the status is 1.
#![tactic(auto)]

use std::fs;
use std::io::{self, Read};

fn main(rt: HostRuntime) -> io::Result<()> {
    let mut text = [0; 4096];
    let front: &[u8] = b"machine";
    let mut input = front.chain(fs::open(&rt, ".")?);
    println!(rt; "opened")?;
    let n = program_input::fill(&mut input, &mut text)?;
    listing::print(&mut rt.stdout(), &text[..n])
}
