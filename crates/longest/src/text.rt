// The text of the line, `δ(a,READ)=(a,WRITE,MOVE)`, appended to a lent output.
ghost use Rattle.std.specs.Prelude.{◌≡◌, ◌<◌, ◌≤◌};
ghost use Rattle.emit.specs.Appends.{Appends};
ghost use Rattle.emit.specs.Output.{output, appended};
ghost use Rattle.longest.specs.Line.{set_of, reads_of, same_of, line_for};

use crate::{set_size, tapes_for};
use emit::Output;

// A read set of so many symbols, the letters from `a` on; one symbol stands alone.
fn set(out: &mut Output, size: usize)
    requires { (1 ≤ size)
        × (size ≤ 26) }
    ensures { Appends (set_of size) out.old out.new }
{
    if size == 1 {
        return out.byte(b'a');
    }
    out.bytes(b"{a");
    for i in 1..size {
        out.byte(b',');
        out.byte(b'a' + i as u8);
    }
    out.byte(b'}');
}

// What is read: a set for each tape; one set stands alone.
fn reads(out: &mut Output, pairs: usize)
    requires { pairs < 41 }
    ensures { Appends (reads_of pairs) out.old out.new }
{
    let tapes = tapes_for(pairs);
    if tapes == 1 {
        return set(out, set_size(pairs, 0));
    }
    out.byte(b'(');
    set(out, set_size(pairs, 0));
    for tape in 1..tapes {
        out.byte(b',');
        set(out, set_size(pairs, tape));
    }
    out.byte(b')');
}

// What is written, or the moves: the same letter for each tape; one stands alone.
fn same(out: &mut Output, letter: u8, tapes: usize)
    requires { 1 ≤ tapes }
    ensures { Appends (same_of letter tapes) out.old out.new }
{
    if tapes == 1 {
        return out.byte(letter);
    }
    out.bytes(&[b'(', letter]);
    for i in 1..tapes {
        out.bytes(&[b',', letter]);
    }
    out.byte(b')');
}

// The line for so many pairs.
fn append(out: &mut Output, pairs: usize)
    requires { pairs < 41 }
    ensures { Appends (line_for pairs) out.old out.new }
{
    let tapes = tapes_for(pairs);
    out.bytes(b"\xCE\xB4(a,");
    reads(out, pairs);
    out.bytes(b")=(a,");
    same(out, b'a', tapes);
    out.bytes(b",");
    same(out, b'R', tapes);
    out.bytes(b")");
}

// The line for so many pairs at the front of a row, as far as there is room; its length.
pub(crate) fn line(pairs: usize, row: &mut [u8]) -> usize
    requires { pairs < 41 }
    ensures { output row.new result ≡ appended (output row.old 0) (line_for pairs) }
{
    let mut out = Output::new(row);
    append(&mut out, pairs);
    out.count()
}
