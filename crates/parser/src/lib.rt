// Lines of a description, read from the tokens in a row of words (the source's dsl/parser.rs, Parser).
#![tactic(auto)]

mod elements;
pub mod items;
mod row;
pub mod view;

use diag::{Code, Span};

// What an item declares, or that it is a transition; in the source's order.
#[derive(Clone, Copy, Debug, PartialEq, Eq)]
pub enum ItemKind {
    Machine,
    Kind,
    Input,
    Output,
    Tapes,
    States,
    InputAlphabet,
    TapeAlphabet,
    Blank,
    Start,
    Final,
    Transition,
}

// How many kinds of items declare something: those before a transition's.
pub const DECLARATIONS: usize = ItemKind::Transition as usize;

// What stands between an item's keyword and its value; a transition's value is the whole item.
#[derive(Clone, Copy, Debug, PartialEq, Eq)]
pub enum Lead {
    Equals,
    Nothing,
    Whole,
}

// Why a line is refused, and the place that is wrong.
#[derive(Clone, Copy, Debug, PartialEq, Eq)]
pub struct Failure {
    pub code: Code,
    pub span: Span,
}

// What a parser answers: the index behind what it read, and what it makes of it.
pub type Parsed<T> = Result<(usize, T), Failure>;

// A transition's parts: the indices where they begin, and how many entries each list has; all 0 for a declaration.
#[derive(Clone, Copy, Debug, Default, PartialEq, Eq)]
pub struct Parts {
    pub from: usize,
    pub read: usize,
    pub reads: usize,
    pub to: usize,
    pub write: usize,
    pub writes: usize,
    pub dir: usize,
    pub dirs: usize,
}

// An item: its value's tokens are those from `value` to before `end`; a comment stands at `end` if `newline` is not there.
#[derive(Clone, Copy)]
pub struct Item {
    pub kind: ItemKind,
    pub value: usize,
    pub end: usize,
    pub newline: usize,
    pub span: Span,
    pub value_span: Span,
    pub parts: Parts,
}

// A line: nothing, only a comment (its index), or an item.
#[derive(Clone, Copy)]
pub enum Line {
    Blank,
    Comment(usize),
    Item(Item),
}
