// One step of a search: over a line of a pass, or on to the next pass.
// Text, work and search stay three parameters: of a struct with all of them, lent to be written, each contract would also say
// that it keeps the text and the loan of work. So what holds while a search runs, `Stands`, is said of the three.
// The tokens of work are put together where a step reads them, from the words that are lent then: a function for it would ask
// that they have room for the tokens, and say what it put where.
ghost use Rattle.std.specs.Prelude.{◌≤◌, ◌<◌, ◌≡◌, length, get_or};
ghost use Rattle.parser.specs.ItemNumbers.{final};
ghost use Rattle.diag_search.specs.Cursor.{onward};
ghost use Rattle.diag_search.specs.Pending.{pending};
ghost use Rattle.diag_search.specs.Stands.{Stands, Stepped};

use crate::{Pass, Search, Step, lines};
use assembler::finals::Names;
use assembler::{FIRSTS, MARKS, declarations};
use lexer::kind;
use parser::ItemKind;
use tokens::Tokens;

// The step to the beginning of another pass.
fn onward(s: Search, pass: Pass, at: usize) -> Step
    ensures { result ≡ onward s pass at }
{
    Step {
        search: s.moved(pass, at),
        found: None,
    }
}

// One step over the failed lines. This and at_names are two: behind the failed lines work is left as it is, behind the
// declarations F's pass writes marks in it.
fn at_failures(text: &[u8], work: &[u32], s: Search) -> Step
    requires { Stands text.now work.now s
        × (s.pass ≡ Pass.Failures) }
    ensures { Stepped text.now work.now work.now s result }
{
    if s.at < s.count {
        let tokens = Tokens {
            words: work,
            count: s.count,
        };
        return lines::failure(&tokens, s);
    }
    onward(s, Pass::Names, 0)
}

// Marks Q's names, before F's line is looked at.
fn enter_finals(text: &[u8], work: &mut [u32], s: Search) -> Step
    requires { Stands text.now work.old s
        × (s.pass ≡ Pass.Names)
        × (s.count ≤ s.at)
        × (get_or s.first final 0 < s.count) }
    ensures { Stepped text.now work.old work.new s result }
{
    let base = text.len() + 1;
    let first = s.first;
    let q = first[ItemKind::States as usize] as usize;
    let f = first[ItemKind::Final as usize] as usize;
    let (front, marks) = work.split_at_mut(MARKS * base);
    let (words, firsts) = front.split_at(FIRSTS * base);
    let tokens = Tokens {
        words,
        count: s.count,
    };
    Names::new(text, tokens, firsts).mark_states(marks, q);
    onward(s, Pass::Finals, f + 1)
}

// From the declarations on: to F, or where there is none to the rules.
fn behind_names(text: &[u8], work: &mut [u32], s: Search) -> Step
    requires { Stands text.now work.old s
        × (s.pass ≡ Pass.Names)
        × (s.count ≤ s.at) }
    ensures { Stepped text.now work.old work.new s result }
{
    let first = s.first;
    if declarations::line(first[ItemKind::Final as usize], s.count).is_some() {
        return enter_finals(text, work, s);
    }
    onward(s, Pass::Rules, 0)
}

// One step over the declarations.
fn at_names(text: &[u8], work: &mut [u32], s: Search) -> Step
    requires { Stands text.now work.old s
        × (s.pass ≡ Pass.Names) }
    ensures { Stepped text.now work.old work.new s result }
{
    if s.at < s.count {
        let tokens = Tokens {
            words: work,
            count: s.count,
        };
        return lines::name(&tokens, s);
    }
    behind_names(text, work, s)
}

// One step over F's line, before its end.
fn at_listed(text: &[u8], work: &mut [u32], s: Search) -> Step
    requires { Stands text.now work.old s
        × (s.pass ≡ Pass.Finals)
        × (s.at < s.count) }
    ensures { Stepped text.now work.old work.new s result }
{
    let ahead = Tokens {
        words: work,
        count: s.count,
    };
    if ahead.at(s.at).kind == kind::NEWLINE {
        return onward(s, Pass::Rules, 0);
    }
    let base = text.len() + 1;
    let first = s.first;
    let declared = declarations::line(first[ItemKind::States as usize], s.count).is_some();
    let (front, marks) = work.split_at_mut(MARKS * base);
    let (words, firsts) = front.split_at(FIRSTS * base);
    let tokens = Tokens {
        words,
        count: s.count,
    };
    lines::listed(&Names::new(text, tokens, firsts), marks, s, declared)
}

// One step over F.
fn at_finals(text: &[u8], work: &mut [u32], s: Search) -> Step
    requires { Stands text.now work.old s
        × (s.pass ≡ Pass.Finals) }
    ensures { Stepped text.now work.old work.new s result }
{
    if s.at < s.count {
        return at_listed(text, work, s);
    }
    onward(s, Pass::Rules, 0)
}

// One step of a search that is not at its end.
pub(crate) fn step(text: &[u8], work: &mut [u32], s: Search) -> Step
    requires { Stands text.now work.old s
        × (1 ≤ length (pending text.now work.old s)) }
    ensures { Stepped text.now work.old work.new s result }
{
    match s.pass {
        Pass::Failures => at_failures(text, work, s),
        Pass::Names => at_names(text, work, s),
        Pass::Finals => at_finals(text, work, s),
        Pass::Rules => {
            let tokens = Tokens {
                words: work,
                count: s.count,
            };
            lines::rule(&tokens, s)
        }
    }
}
