// The plain form of a machine (paper 01), from the head, the sheet and the text that a reading call answered with.
// Each function appends one piece of the form to a lent output, as crate `emit` does: stored where there is room, counted in any
// case.
#![tactic(auto)]

ghost use Rattle.std.specs.Prelude.{true, ◌≡◌};
ghost use Rattle.chars.specs.Utf8.{scalar, encode};
ghost use Rattle.chars.specs.Decoded.{scalars};
ghost use Rattle.language.specs.Plain.{say, decimal, kind_name, decoder, pieces, plain};
ghost use Rattle.language.specs.Agreement.{groups, content_of_answer};
ghost use Rattle.emit.specs.Output.{output, appended};
ghost use Rattle.sheet_view.specs.Sections.{sigma_from, gamma_from};
ghost use Rattle.form_strings.specs.Writes.{Writes};
ghost use Rattle.form_lists.specs.Places.{Every, Utf8At, NameIn, column};
ghost use Rattle.form.specs.Answers.{answer};
ghost use Rattle.form.specs.Sections.{head_lines, states_line, symbols_line, blank_line, start_line, finals_line, declared_lines};
ghost use Rattle.form.specs.WellFormed.{DecoderFormed, WellFormed, formed_one};

use emit::Output;
use form_lists::{comment_lines, final_names, names, string, symbols, verbatim};
use form_rules::rules;
use form_strings::{character, symbol};
use machine::{BitOrder, Decoder, Head, Kind, Span};
use sheet_layout::{CODE, SYMBOL_WORDS};
use sheet_view::sections::Sections;

// ---- the lines before the rules

// These take what a line says, and no machine: a contract of a line then speaks of its own words alone. `declared` is what the
// line tests; no Option holds it and the value together, since the head has a blank and a start also where none is declared.

// The number of tapes.
fn number(out: &mut Output, n: u8)
    ensures { Writes (decimal n) out.old out.new }
{
    out.decimal(u64::from(n));
}

// The name of a kind.
fn kind(out: &mut Output, k: Kind)
    ensures { Writes (say (kind_name k)) out.old out.new }
{
    match k {
        Kind::Acceptor => out.bytes(b"acceptor"),
        Kind::Transducer => out.bytes(b"transducer"),
        Kind::Enumerator => out.bytes(b"enumerator"),
        Kind::Beaver => out.bytes(b"beaver"),
    }
}

// How the output is read.
#[tactic(auto, using(form_strings::proofs::Chain::chain))]
fn decoder(out: &mut Output, d: Decoder)
    requires { DecoderFormed d }
    ensures { Writes (decoder d) out.old out.new }
{
    match d {
        Decoder::Word => out.bytes(b"word"),
        Decoder::Unary(c) => {
            out.bytes(b"unary ");
            symbol(out, c);
        }
        Decoder::Binary(BitOrder::Lsb) => out.bytes(b"binary lsb"),
        Decoder::Binary(BitOrder::Msb) => out.bytes(b"binary msb"),
    }
}

// `Q`, if declared.
#[tactic(auto, using(form_strings::proofs::Chain::chain), unfolding(crate::specs::Sections::states_line, language::specs::Plain::name_set))]
fn states_line(out: &mut Output, text: &[u8], declared: bool, n: u32, words: &[u32])
    requires { Every (NameIn text.now) (groups 3 n words.now) }
    ensures { Writes (states_line text.now declared n words.now) out.old out.new }
{
    if declared {
        out.bytes(b"Q = {");
        names(out, text, words, n);
        out.bytes(b"}\n");
    }
}

// `Σ` or `Γ`, by its letter, if declared.
#[tactic(auto, using(form_strings::proofs::Chain::chain), unfolding(crate::specs::Sections::symbols_line, language::specs::Plain::symbol_set))]
fn symbols_line(out: &mut Output, letter: u32, declared: bool, n: u32, words: &[u32])
    requires { (scalar letter ≡ true)
        × (declared ≡ true → scalars (column 3 0 n words.now) ≡ true) }
    ensures { Writes (symbols_line letter declared n words.now) out.old out.new }
{
    if declared {
        character(out, letter);
        out.bytes(b" = {");
        symbols(out, words, SYMBOL_WORDS, CODE, n);
        out.bytes(b"}\n");
    }
}

// `blank`, if declared.
fn blank_line(out: &mut Output, declared: bool, c: u32)
    requires { scalar c ≡ true }
    ensures { Writes (blank_line declared c) out.old out.new }
{
    if declared {
        out.bytes(b"blank = ");
        symbol(out, c);
        out.bytes(b"\n");
    }
}

// `start`, if declared.
#[tactic(auto, using(form_strings::proofs::Chain::chain), unfolding(crate::specs::Sections::start_line))]
fn start_line(out: &mut Output, text: &[u8], declared: bool, p: Span)
    requires { Utf8At text.now p }
    ensures { Writes (start_line text.now declared p) out.old out.new }
{
    if declared {
        out.bytes(b"start = ");
        verbatim(out, text, p);
        out.bytes(b"\n");
    }
}

// `F`, which is always there.
#[tactic(auto, using(form_strings::proofs::Chain::chain), unfolding(crate::specs::Sections::finals_line, language::specs::Plain::name_set))]
fn finals_line(out: &mut Output, text: &[u8], n: u32, words: &[u32])
    requires { Every (NameIn text.now) (groups 3 n words.now) }
    ensures { Writes (finals_line text.now n words.now) out.old out.new }
{
    out.bytes(b"F = {");
    final_names(out, text, words, n);
    out.bytes(b"}\n");
}

// ---- the whole form

// The machine that a reading call answered with: its head, its sheet, and the text that was read.
#[derive(Clone, Copy)]
struct Machine<'a> {
    head: Head,
    sheet: &'a [u32],
    text: &'a [u8],
    ghost formed: { WellFormed (answer head sheet.now text.now) } by { formed_one (answer head sheet.now text.now) },
}

impl Machine<'_> {
    ghost use Rattle.form.specs.Machines.{answer_of};

    // The sections of its sheet.
    fn sections(&self) -> Sections<'_>
        ensures { (result.counts ≡ self.now.head.counts)
            × (result.states.now ≡ self.now.sheet.now) }
    {
        Sections {
            counts: self.head.counts,
            states: self.sheet,
        }
    }

    // `machine`, `kind`, `input`, `output` and `tapes`.
    fn head_lines(&self, out: &mut Output)
        ensures { Writes (head_lines self.now.text.now self.now.head) out.old out.new }
    {
        out.bytes(b"machine ");
        string(out, self.text, self.head.name);
        out.bytes(b"\nkind ");
        kind(out, self.head.kind);
        out.bytes(b"\ninput ");
        string(out, self.text, self.head.input);
        out.bytes(b"\noutput ");
        decoder(out, self.head.output);
        out.bytes(b"\ntapes = ");
        number(out, self.head.tapes);
        out.bytes(b"\n");
    }

    // All that is said only if declared, and the final states.
    fn declared_lines(&self, out: &mut Output)
        ensures { Writes (declared_lines self.now.text.now self.now.head self.now.sheet.now
            (sigma_from (answer_of self.now).head.counts self.now.sheet.now)
            (gamma_from (answer_of self.now).head.counts self.now.sheet.now)) out.old out.new }
    {
        let said = self.head.declared;
        let n = self.head.counts;
        let sheet = self.sections();
        states_line(out, self.text, said.states, n.states, self.sheet);
        symbols_line(out, 0x3A3, said.input_alphabet, n.sigma, sheet.sigma());
        symbols_line(out, 0x393, said.tape_alphabet, n.gamma, sheet.gamma());
        blank_line(out, said.blank, self.head.blank);
        start_line(out, self.text, said.start, self.head.start);
        finals_line(out, self.text, n.states, self.sheet);
    }

    // All lines of the form.
    fn lines(&self, out: &mut Output)
        ensures { Writes (pieces (content_of_answer (answer_of self.now))) out.old out.new }
    {
        let n = self.head.counts;
        let sheet = self.sections();
        comment_lines(out, self.text, sheet.header(), n.header);
        self.head_lines(out);
        self.declared_lines(out);
        rules(out, self.text, sheet.rules(), n.rules);
        comment_lines(out, self.text, sheet.trailing(), n.trailing);
    }
}

// The plain form of the machine that a reading call answered with, at the front of `out` as far as there is room; its length.
pub fn plain_form(head: Head, sheet: &[u32], text: &[u8], out: &mut [u8]) -> usize
    requires { WellFormed (answer head sheet.now text.now) }
    ensures { output out.new result
        ≡ appended (output out.old 0) (encode (plain (content_of_answer (answer head sheet.now text.now)))) }
{
    let machine = Machine { head, sheet, text };
    let mut form = Output::new(out);
    machine.lines(&mut form);
    form.count()
}
