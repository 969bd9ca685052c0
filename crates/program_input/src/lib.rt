// Bytes from a reader into a lent row.
#![tactic(auto)]

ghost use Rattle.std.specs.Prelude.{◌<◌, ◌≤◌, length, take, IfOk};
ghost use Rattle.std.specs.Io.KnownBytes.{Consumes, IsAtEnd};

use std::io::{self, Read};

// Reads until the row is full or the input ends; how many bytes stand at the row's front then.
// A reader gives as many at a time as it likes: no range counts them.
pub fn fill<R: Read>(input: &mut R, row: &mut [u8]) -> io::Result<usize>
    ensures bound { IfOk result (λ n. n ≤ length row.new) }
    ensures bytes { IfOk result (λ n. Consumes (R.remaining input.old) (R.remaining input.new) (take n row.new)) }
    ensures end { IfOk result (λ n. n < length row.new → IsAtEnd (R.remaining input.new)) }
{
    let mut done = 0;
    while done < row.len() {
        match input.read(&mut row[done..]) {
            Ok(0) => break,
            Ok(n) => done += n,
            Err(e) => return Err(e),
        }
    }
    Ok(done)
}
