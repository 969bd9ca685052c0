// The section of finals: the place of each name that F lists.
ghost use Rattle.tokens.specs.Listed.{tokens_of};
ghost use Rattle.sheet.specs.Puts.{Puts};
ghost use Rattle.infer.specs.States.{final_section};

use lexer::kind;
use parser::view;
use sheet::put::Sheet;
use tokens::{Tokens, span_of};

// The places of the names that the line at an index lists.
pub fn places(tokens: &Tokens, line: u32, out: &mut Sheet)
    ensures { Puts (final_section (tokens_of tokens.now) line) out.old out.new }
{
    for x in line as usize + 1..tokens.len() {
        let t = tokens.at(x);
        if t.kind == kind::NEWLINE {
            return;
        }
        if view::is_state(t) {
            out.place(span_of(t));
        }
    }
}
