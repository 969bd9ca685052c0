// The program `run`: runs the machine of the description on standard input, and prints how it ended. `--steps N` and `--cells N`
// say how many steps it may do at most, and on how many cells. A longer text than fits here is refused like every one above
// 65,536 bytes.
#![tactic(auto)]

use run_arguments::{Limits, MAX_CELLS};
use std::env::{Env, FillError};
use std::io;

// Bytes of the row for a text: more than the longest that is taken, so that a longer one is seen to be so.
const TEXT_BYTES: usize = 69632;

// The limits that the arguments ask for; none where one is no option, or lacks its number.
fn limits(rt: &impl Env) -> Option<Limits> {
    let mut limits = Limits::DEFAULT;
    let mut name = [0; 16];
    let mut value = [0; 32];
    // There are never so many arguments: the row of them alone would not fit into memory.
    for i in 0..usize::MAX / 2 {
        let at = match rt.arg(2 * i + 1, &mut name) {
            Ok(n) => n,
            Err(FillError::NotPresent) => return Some(limits),
            Err(FillError::TooLong) => return None,
        };
        let Ok(n) = rt.arg(2 * i + 2, &mut value) else {
            return None;
        };
        limits = limits.with_option(&name[..at], &value[..n])?;
    }
    None
}

fn main(rt: HostRuntime) -> io::Result<()> {
    let Some(limits) = limits(&rt) else {
        eprintln!(rt;
            "run takes --steps N and --cells N, a number of 64 bits and one up to {MAX_CELLS}"
        )?;
        return Err(io::Error::from(io::ErrorKind::InvalidInput));
    };
    let mut text = [0; TEXT_BYTES];
    let n = program_input::fill(&mut rt.stdin(), &mut text)?;
    run_listing::print(&mut rt.stdout(), &mut rt.stderr(), &text[..n], limits)
}
