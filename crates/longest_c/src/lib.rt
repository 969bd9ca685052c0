// The line that expands the most for callers in other languages: longest's call, exported from a static library.
#![tactic(auto)]

ghost use Rattle.std.specs.Prelude.{◌≡◌, take, IfOk};
ghost use Rattle.longest.specs.Call.{longest, given};
ghost use Rattle.longest.specs.Most.{Most};

// A rule line of at most n bytes at the front of the output that expands to as many rules as any, 0; or 22 and the output as it
// was. The answer's four words are its number, the length of the line, and the number of rules, low word first; a shorter row is
// left as it is.
#[unsafe(no_mangle)]
pub extern "C" fn pevzoncs_longest(n: u64, output: &mut [u8], answer: &mut [u32]) -> u32
    ensures outcome { (result, output.new, answer.new) ≡ given (longest n output.old) answer.old }
    ensures most { IfOk (longest n output.old).0 (λ l. Most n (take l.length output.new) l.rules) }
{
    longest::pevzoncs_longest(n, output, answer)
}
