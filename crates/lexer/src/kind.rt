// The kinds of tokens, in the order of the source's TokenKind.
#[derive(Clone, Copy, Debug, PartialEq, Eq)]
pub enum TokenKind {
    Word,
    Number,
    Quoted,
    Str,
    LParen,
    RParen,
    LBrace,
    RBrace,
    Comma,
    Eq,
    Star,
    Other,
    Comment,
    Newline,
    UnterminatedString,
    UnterminatedQuote,
}

// The kinds as the rows of tokens have them: callers in C lend these rows, so that their words stay numbers.
pub const WORD: u32 = TokenKind::Word as u32;

pub const NUMBER: u32 = TokenKind::Number as u32;

pub const QUOTED: u32 = TokenKind::Quoted as u32;

pub const STR: u32 = TokenKind::Str as u32;

pub const L_PAREN: u32 = TokenKind::LParen as u32;

pub const R_PAREN: u32 = TokenKind::RParen as u32;

pub const L_BRACE: u32 = TokenKind::LBrace as u32;

pub const R_BRACE: u32 = TokenKind::RBrace as u32;

pub const COMMA: u32 = TokenKind::Comma as u32;

pub const EQ: u32 = TokenKind::Eq as u32;

pub const STAR: u32 = TokenKind::Star as u32;

pub const OTHER: u32 = TokenKind::Other as u32;

pub const COMMENT: u32 = TokenKind::Comment as u32;

pub const NEWLINE: u32 = TokenKind::Newline as u32;

pub const UNTERMINATED_STRING: u32 = TokenKind::UnterminatedString as u32;

pub const UNTERMINATED_QUOTE: u32 = TokenKind::UnterminatedQuote as u32;
