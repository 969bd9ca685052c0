// Prints names of states at which `state_names::state_name` may go wrong, one to a line: places at, before and behind the text's
// ends, and words outside the sheet.
#![tactic(auto)]

use state_names::state_name;
use std::io;

// The name of state i of a sheet, between brackets.
fn show(rt: &impl Print, sheet: &[u32], text: &[u8], i: usize) -> io::Result<()> {
    rt.write_all(b"[")?;
    rt.write_all(state_name(sheet, text, i))?;
    rt.write_all(b"]\n")
}

fn main(rt: HostRuntime) -> io::Result<()> {
    let text = b"start = ab";
    // two states, the second final, and two words that are no third
    let sheet = [8, 10, 0, 0, 5, 1, 7, 8];
    for i in [0, 1, 2, usize::MAX] {
        show(&rt, &sheet, text, i)?;
    }
    // up to the end; of no length, backwards, one beyond the end, none
    let odd = [
        9,
        10,
        0,
        10,
        10,
        0,
        9,
        8,
        0,
        9,
        11,
        0,
        u32::MAX,
        u32::MAX,
        0,
    ];
    for i in 0..5 {
        show(&rt, &odd, text, i)?;
    }
    // an empty text, an empty sheet
    show(&rt, &odd, b"", 0)?;
    show(&rt, &[], text, 0)
}
