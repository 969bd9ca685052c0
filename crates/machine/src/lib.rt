// The head of a machine that was read (the source's machine.rs and spec.rs), by value.
#![tactic(auto)]

ghost use Rattle.std.specs.Prelude.{◌≡◌};
ghost use Rattle.machine.specs.Numbers.{kind_number};

pub use diag::Span;

// What a machine is used for.
#[derive(Clone, Copy, Debug, PartialEq, Eq)]
pub enum Kind {
    Acceptor,
    Transducer,
    Enumerator,
    Beaver,
}

// Paper 01 numbers the kinds in the order of the enum. Assembler's `item_number` is this cast of another enum: a cast has nothing to share.
impl From<Kind> for u32 {
    ghost from_gives = { λ k n. n ≡ kind_number k };

    fn from(kind: Kind) -> u32 {
        kind as u32
    }
}

// The order of bits of a binary output.
#[derive(Clone, Copy, Debug, PartialEq, Eq)]
pub enum BitOrder {
    Lsb,
    Msb,
}

// How the output is read: as a word, by counting a symbol, as a binary number.
#[derive(Clone, Copy, Debug, PartialEq, Eq)]
pub enum Decoder {
    Word,
    Unary(u32),
    Binary(BitOrder),
}

// Which parts were declared: each flag of paper 01 says a thing of its own, and none says whether another field counts.
#[derive(Clone, Copy, Debug, PartialEq, Eq)]
pub struct Declared {
    pub states: bool,
    pub input_alphabet: bool,
    pub tape_alphabet: bool,
    pub start: bool,
    pub blank: bool,
}

// Where the parts were written, or none: kind and Q as a whole, the others their values.
#[derive(Clone, Copy, Debug, PartialEq, Eq)]
pub struct SourceMap {
    pub kind: Span,
    pub input: Span,
    pub tapes: Span,
    pub start: Span,
    pub states: Span,
}

// How many members each section of the sheet has.
#[derive(Clone, Copy, Debug, PartialEq, Eq)]
pub struct Counts {
    pub states: u32,
    pub sigma: u32,
    pub gamma: u32,
    pub finals: u32,
    pub header: u32,
    pub trailing: u32,
    pub rules: u32,
}

// The head: places of name and input between their quotes, the place of the start's name, and the rest of what is said once.
#[derive(Clone, Copy, Debug, PartialEq, Eq)]
pub struct Head {
    pub output: Decoder,
    pub name: Span,
    pub input: Span,
    pub kind: Kind,
    pub tapes: u8,
    pub blank: u32,
    pub declared: Declared,
    pub start: Span,
    pub map: SourceMap,
    pub counts: Counts,
}
