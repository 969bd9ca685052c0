// Where things stand in the sheet (docs/FORMAT.md), each number once: how many words a record has, and the word at which a part
// of it begins. Whoever writes the sheet takes them from here, and whoever reads it.
#![tactic(auto)]

// A state: the place of its name, then its final mark.
pub const STATE_WORDS: usize = 3;

// The name of a state.
pub const NAME: usize = 0;

// The final mark of a state.
pub const FINAL: usize = 2;

// A symbol: its code, then its place.
pub const SYMBOL_WORDS: usize = 3;

// The code of a symbol.
pub const CODE: usize = 0;

// A place alone: a final state as it is listed, or a comment.
pub const PLACE_WORDS: usize = 2;

// A rule: its length; the places of from, to, line and comment; its arity and how many comments lead it; then its actions, and
// those comments. First stands how many words it has.
pub const LENGTH: usize = 0;

// The name of the state that a rule is for.
pub const FROM: usize = 1;

// The name of the state that a rule leads to.
pub const TO: usize = 3;

// The line of a rule.
pub const LINE: usize = 5;

// The comment on a rule's own line.
pub const COMMENT: usize = 7;

// How many tapes a rule acts on.
pub const ARITY: usize = 9;

// How many comments lead a rule.
pub const LEADING: usize = 10;

// The first action of a rule.
pub const ACTIONS: usize = 11;

// An action: the code read and its place, the code written and its place, the number of the direction.
pub const ACTION_WORDS: usize = 7;

// The code that an action reads.
pub const READ: usize = 0;

// The code that an action writes.
pub const WRITE: usize = 3;

// The number of the direction of an action.
pub const MOVE: usize = 6;
