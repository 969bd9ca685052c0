// How many words the rules of a line take, without expanding them.
ghost use Rattle.std.specs.Prelude.{◌≡◌, ◌+◌, ◌*◌, ◌^◌, ◌<◌, ◌≤◌, length};
ghost use Rattle.tokens.specs.Listed.{tokens_of};
ghost use Rattle.sheet.specs.Rules.{line_length};

use crate::comments;
use crate::comments::Pending;
use assembler::{entry, sets};
use sheet_layout::{ACTION_WORDS, ACTIONS, PLACE_WORDS};
use tokens::{Token, Tokens};

// How many words the rules of the line take that begins with the token t at an index; none if it is no rule.
pub(crate) fn line_length(tokens: &Tokens, p: Pending, line: usize, t: Token) -> usize
    requires { (tokens.now.count < 2 ^ 32)
        × (line < tokens.now.count) }
    ensures { result ≡ line_length (tokens_of tokens.now) p line t }
{
    if t.kind != entry::RULE {
        return 0;
    }
    let arity = tokens.at(line + entry::COUNTS).start as usize;
    let to = tokens.at(line + entry::PARTS).start as usize;
    let n = sets::combinations(tokens, line + entry::READ, to);
    let k = comments::count_between(tokens, p.lead_from(), line);
    n * (ACTIONS + ACTION_WORDS * arity) + PLACE_WORDS * k
}
