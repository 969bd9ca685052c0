// The lines that the list program prints (paper 01), from what a reading call answered with, its log and sheet, and the text.
// Each function appends a piece to an output: stored where there is room, counted in any case.
// Text and output stay two parameters: of a struct with both, lent to be written, each contract would also say that its text
// stays, and each proof would carry the text from piece to piece. The words beside them are another row for each: a section, a
// record or a log, and n its records.
#![tactic(auto)]

ghost use Rattle.std.specs.Prelude.{◌∷◌, ◌<◌, ◌≤◌, ltb, length};
ghost use Rattle.language.specs.Plain.{◌⨾◌, only, direction};
ghost use Rattle.language.specs.Agreement.{groups};
ghost use Rattle.sheet_view.specs.Directions.{dir_in};
ghost use Rattle.list_lines.specs.Listing.{named, parted, names, codes, moves, place, related, position, diagnostic, transition};
ghost use Rattle.list_lines.specs.Listing.{diagnostic_lines, state_lines, symbol_lines, transition_lines, machine_lines};
ghost use Rattle.list_lines.specs.Listing.{refused_line, bytes_line};
ghost use Rattle.list_lines.specs.Puts.{Puts};

use diag::{DIAGNOSTIC_WORDS, record_at};
use emit::Output;
use lexer::names::part_of;
use machine::{Head, Span};
use positions::line_column;
use sheet_layout::{ACTION_WORDS, CODE, MOVE, READ, STATE_WORDS, SYMBOL_WORDS, WRITE};
use sheet_view::direction::{Direction, direction_of};
use sheet_view::rule::{Rule, rule_at};
use sheet_view::sections::Sections;
use sheet_view::state::state_at;
use sheet_view::{after, word};

// ---- names and lists

// The bytes at a place of the text.
#[tactic(auto, using(crate::proofs::Chain::chain), unfolding(crate::specs::Listing::named))]
fn named(out: &mut Output, text: &[u8], at: Span)
    ensures { Puts (named text.now at) out.old out.new }
{
    out.bytes(part_of(text, at.start as usize, at.end as usize));
}

// A byte before every member of a list but the first.
#[tactic(auto, using(crate::proofs::Chain::chain))]
fn separator(out: &mut Output, i: u32, sep: u8)
    ensures { Puts (only (ltb 0 i) (λ rest. sep ∷ rest)) out.old out.new }
{
    if 0 < i {
        out.byte(sep);
    }
}

// The names of n states, all or only the final ones.
fn names(out: &mut Output, text: &[u8], states: &[u32], n: u32, all: bool)
    ensures { Puts (parted 0x20 (names text.now all (groups 3 n states.now))) out.old out.new }
{
    let mut rest = states;
    let mut printed = 0;
    // The rest is cut by `after`, and not into chunks: n records are listed also where the words end before, and what is lacking
    // is empty or 0.
    // The index has a name, here and in transition_lines, since what is left to print is told by it in the loop's invariant.
    for i in 0..n {
        let state = state_at(rest, 0);
        rest = after(rest, STATE_WORDS);
        if all || state.is_final {
            separator(out, printed, b' ');
            named(out, text, state.name);
            printed += 1;
        }
    }
}

// The codes in word o of n records of k words.
fn codes(out: &mut Output, words: &[u32], k: usize, o: usize, n: u32, sep: u8)
    requires { o < k }
    ensures { Puts (parted sep (codes o (groups k n words.now))) out.old out.new }
{
    let mut rest = words;
    for i in 0..n {
        separator(out, i, sep);
        out.decimal(word(rest, o).into());
        rest = after(rest, k);
    }
}

// The move of a head. Crate form_lists' `direction` promises characters in UTF-8, and this one bytes.
fn direction(out: &mut Output, d: Direction)
    ensures { Puts (direction (dir_in d)) out.old out.new }
{
    out.byte(d.letter());
}

// The moves of n actions. One function for this and `codes` would take what prints a word, and its piece in the contract: it is
// no shorter than both.
fn directions(out: &mut Output, actions: &[u32], n: u32)
    ensures { Puts (parted 0x2C (moves (groups 7 n actions.now))) out.old out.new }
{
    let mut rest = actions;
    for i in 0..n {
        separator(out, i, b',');
        direction(out, direction_of(word(rest, MOVE)));
        rest = after(rest, ACTION_WORDS);
    }
}

// ---- diagnostics

// The position of an offset.
fn position_of(out: &mut Output, text: &[u8], offset: u32)
    ensures { Puts (position text.now offset) out.old out.new }
{
    let p = line_column(text, offset);
    out.decimal(p.line as u64);
    out.bytes(b":");
    out.decimal(p.column as u64);
}

// A place.
fn place(out: &mut Output, at: Span)
    ensures { Puts (place at) out.old out.new }
{
    out.decimal(at.start.into());
    out.bytes(b" ");
    out.decimal(at.end.into());
}

// A related place, or that there is none.
fn related(out: &mut Output, at: Span)
    ensures { Puts (related at) out.old out.new }
{
    if at == Span::NONE {
        return out.bytes(b"none none");
    }
    place(out, at);
}

// A diagnostic, from the words of its record.
fn diagnostic(out: &mut Output, text: &[u8], words: &[u32])
    requires { 5 ≤ length words.now }
    ensures { Puts (diagnostic text.now words.now) out.old out.new }
{
    let d = record_at(words, 0);
    out.bytes(b"diagnostic=");
    out.decimal(d.code.into());
    out.bytes(b" ");
    place(out, d.span);
    out.bytes(b" ");
    related(out, d.related);
    out.bytes(b" ");
    position_of(out, text, d.span.start);
    out.bytes(b"\n");
}

// How many diagnostics there are, and each of those that the log holds: n is told, and may be more than the log has records for.
fn diagnostic_lines(out: &mut Output, text: &[u8], n: usize, log: &[u32])
    ensures { Puts (diagnostic_lines text.now n log.now) out.old out.new }
{
    out.bytes(b"diagnostics=");
    out.decimal(n as u64);
    out.bytes(b"\n");
    for record in log.chunks_exact(DIAGNOSTIC_WORDS).take(n) {
        diagnostic(out, text, record);
    }
}

// ---- a machine

// A transition, from its rule in the sheet.
fn transition(out: &mut Output, text: &[u8], rule: &Rule<'_>)
    ensures { Puts (transition text.now rule.now.words.now) out.old out.new }
{
    let actions = rule.actions();
    let n = rule.arity();
    out.bytes(b"transition=");
    named(out, text, rule.from());
    out.bytes(b" ");
    codes(out, actions, ACTION_WORDS, READ, n, b',');
    out.bytes(b" ");
    named(out, text, rule.to());
    out.bytes(b" ");
    codes(out, actions, ACTION_WORDS, WRITE, n, b',');
    out.bytes(b" ");
    directions(out, actions, n);
    out.bytes(b"\n");
}

// n states: all, the final ones, and the start.
#[tactic(auto, using(crate::proofs::Chain::chain), unfolding(crate::specs::Listing::state_lines))]
fn state_lines(out: &mut Output, text: &[u8], n: u32, start: Span, states: &[u32])
    ensures { Puts (state_lines text.now n start states.now) out.old out.new }
{
    out.bytes(b"states=");
    names(out, text, states, n, true);
    out.bytes(b"\nfinals=");
    names(out, text, states, n, false);
    out.bytes(b"\nstart=");
    named(out, text, start);
    out.bytes(b"\n");
}

// n symbols of Σ and m of Γ.
#[tactic(auto, using(crate::proofs::Chain::chain), unfolding(crate::specs::Listing::symbol_lines))]
fn symbol_lines(out: &mut Output, n: u32, sigma: &[u32], m: u32, gamma: &[u32])
    ensures { Puts (symbol_lines n sigma.now m gamma.now) out.old out.new }
{
    out.bytes(b"sigma=");
    codes(out, sigma, SYMBOL_WORDS, CODE, n, b' ');
    out.bytes(b"\ngamma=");
    codes(out, gamma, SYMBOL_WORDS, CODE, m, b' ');
    out.bytes(b"\n");
}

// n transitions, each of a record that begins with its length.
fn transition_lines(out: &mut Output, text: &[u8], n: u32, rules: &[u32])
    ensures { Puts (transition_lines text.now n rules.now) out.old out.new }
{
    out.bytes(b"transitions=");
    out.decimal(n.into());
    out.bytes(b"\n");
    let mut rest = rules;
    for i in 0..n {
        let rule = rule_at(rest, 0);
        transition(out, text, &rule);
        rest = after(rest, rule.length() as usize);
    }
}

// The lines of a machine, from the sections of its sheet.
fn machine_lines(out: &mut Output, text: &[u8], head: &Head, sheet: &[u32])
    ensures { Puts (machine_lines text.now head.now.counts head.now.start sheet.now) out.old out.new }
{
    let n = head.counts;
    let sections = Sections {
        counts: n,
        states: sheet,
    };
    out.bytes(b"diagnostics=0\n");
    state_lines(out, text, n.states, head.start, sheet);
    symbol_lines(out, n.sigma, sections.sigma(), n.gamma, sections.gamma());
    transition_lines(out, text, n.rules, sections.rules());
}

// ---- the whole

// The first line of all others: the text's length.
#[tactic(auto, using(crate::proofs::Chain::chain), unfolding(crate::specs::Listing::bytes_line))]
pub fn bytes_line(out: &mut Output, text: &[u8])
    ensures { Puts (bytes_line text.now) out.old out.new }
{
    out.bytes(b"bytes=");
    out.decimal(text.len() as u64);
    out.bytes(b"\n");
}

// The line that stands alone: a refusal's number and value.
#[tactic(auto, using(crate::proofs::Chain::chain), unfolding(crate::specs::Listing::refused_line))]
pub fn refused(out: &mut Output, n: u32, v: u64)
    ensures { Puts (refused_line n v) out.old out.new }
{
    out.bytes(b"refused=");
    out.decimal(n.into());
    out.bytes(b" ");
    out.decimal(v);
    out.bytes(b"\n");
}

// All that is printed for n diagnostics.
pub fn diagnosed(out: &mut Output, text: &[u8], n: usize, log: &[u32])
    ensures { Puts (bytes_line text.now ⨾ diagnostic_lines text.now n log.now) out.old out.new }
{
    bytes_line(out, text);
    diagnostic_lines(out, text, n, log);
}

// All that is printed for a machine.
pub fn machine(out: &mut Output, text: &[u8], head: &Head, sheet: &[u32])
    ensures { Puts (bytes_line text.now
        ⨾ machine_lines text.now head.now.counts head.now.start sheet.now) out.old out.new }
{
    bytes_line(out, text);
    machine_lines(out, text, head, sheet);
}
