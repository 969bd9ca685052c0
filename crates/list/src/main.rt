// The list program (paper 01): lists the description on standard input. A longer one than fits here is refused like every one
// above 2,048 bytes.
#![tactic(auto)]

use std::io;

fn main(rt: HostRuntime) -> io::Result<()> {
    let mut text = [0; 4096];
    let n = program_input::fill(&mut rt.stdin(), &mut text)?;
    listing::print(&mut rt.stdout(), &text[..n])
}
