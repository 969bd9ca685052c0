// The words with a meaning of their own, in the order of `keywords`, which numbers them from 1.
#[derive(Clone, Copy, Debug, PartialEq, Eq)]
pub enum Keyword {
    Machine = 1,
    Kind,
    Input,
    Output,
    Tapes,
    Q,
    SigmaSign,
    Sigma,
    GammaSign,
    Gamma,
    Blank,
    Start,
    F,
    DeltaSign,
    Delta,
    Acceptor,
    Transducer,
    Enumerator,
    Beaver,
    Word,
    Unary,
    Binary,
    Lsb,
    Msb,
}

// The value of a word of more characters than one: this and its number, or this alone if it is none of
// them. It lies above all codes of characters.
pub const LONGER: u32 = 0x11_0000;

// The keywords' values as the rows of tokens have them: callers in C lend these rows, so that their words stay
// numbers. A word of one character has its code.
pub const MACHINE: u32 = LONGER + Keyword::Machine as u32;

pub const KIND: u32 = LONGER + Keyword::Kind as u32;

pub const INPUT: u32 = LONGER + Keyword::Input as u32;

pub const OUTPUT: u32 = LONGER + Keyword::Output as u32;

pub const TAPES: u32 = LONGER + Keyword::Tapes as u32;

pub const Q: u32 = 'Q' as u32;

pub const SIGMA_SIGN: u32 = 'Σ' as u32;

pub const SIGMA: u32 = LONGER + Keyword::Sigma as u32;

pub const GAMMA_SIGN: u32 = 'Γ' as u32;

pub const GAMMA: u32 = LONGER + Keyword::Gamma as u32;

pub const BLANK: u32 = LONGER + Keyword::Blank as u32;

pub const START: u32 = LONGER + Keyword::Start as u32;

pub const F: u32 = 'F' as u32;

pub const DELTA_SIGN: u32 = 'δ' as u32;

pub const DELTA: u32 = LONGER + Keyword::Delta as u32;

pub const ACCEPTOR: u32 = LONGER + Keyword::Acceptor as u32;

pub const TRANSDUCER: u32 = LONGER + Keyword::Transducer as u32;

pub const ENUMERATOR: u32 = LONGER + Keyword::Enumerator as u32;

pub const BEAVER: u32 = LONGER + Keyword::Beaver as u32;

pub const WORD: u32 = LONGER + Keyword::Word as u32;

pub const UNARY: u32 = LONGER + Keyword::Unary as u32;

pub const BINARY: u32 = LONGER + Keyword::Binary as u32;

pub const LSB: u32 = LONGER + Keyword::Lsb as u32;

pub const MSB: u32 = LONGER + Keyword::Msb as u32;
