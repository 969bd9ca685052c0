// What the parser asks of one token.
ghost use Rattle.std.specs.Prelude.{◌≡◌};
ghost use Rattle.parser.specs.Views.{is_kind, is_choice, is_state, is_symbol, is_write, is_move, is_direction, is_text, keyword_of, lead_of};

use crate::{ItemKind, Lead};
use lexer::{keyword, kind};
use tokens::Token;

// A token of a kind.
#[tactic(auto, unfolding(crate::specs::Views::is_kind))]
pub(crate) fn is_kind(t: Token, kind: u32) -> bool
    ensures { result ≡ is_kind kind t }
{
    t.kind == kind
}

// A word among the keywords of some values.
#[tactic(auto, unfolding(crate::specs::Views::is_choice))]
pub(crate) fn is_choice(t: Token, first: u32, last: u32) -> bool
    ensures { result ≡ is_choice first last t }
{
    t.kind == kind::WORD && first <= t.value && t.value <= last
}

// A word but `_`.
#[tactic(auto, unfolding(crate::specs::Views::is_state))]
pub fn is_state(t: Token) -> bool
    ensures { result ≡ is_state t }
{
    t.kind == kind::WORD && t.value != '_' as u32
}

// A word or a number of one character, a quoted character, or another sign but `;`.
#[tactic(auto, unfolding(crate::specs::Views::is_symbol))]
pub fn is_symbol(t: Token) -> bool
    ensures { result ≡ is_symbol t }
{
    // One comparison leaves three kinds: one match of all four is 8 in a hundred slower where a text is a list of symbols.
    if t.kind < kind::STR {
        return match t.kind {
            kind::WORD => t.value < keyword::LONGER,
            kind::NUMBER => u64::from(t.start) + 1 == u64::from(t.end),
            _ => true,
        };
    }
    t.kind == kind::OTHER && t.value != ';' as u32
}

// A symbol, or `*` for the symbol read.
#[tactic(auto, unfolding(crate::specs::Views::is_write))]
pub(crate) fn is_write(t: Token) -> bool
    ensures { result ≡ is_write t }
{
    t.kind == kind::STAR || is_symbol(t)
}

// L, R or N.
#[tactic(auto, unfolding(crate::specs::Views::is_move))]
pub(crate) fn is_move(c: u32) -> bool
    ensures { result ≡ is_move c }
{
    c == 'L' as u32 || c == 'R' as u32 || c == 'N' as u32
}

// L, R or N, as a word or quoted.
#[tactic(auto, unfolding(crate::specs::Views::is_direction))]
pub(crate) fn is_direction(t: Token) -> bool
    ensures { result ≡ is_direction t }
{
    matches!(t.kind, kind::WORD | kind::QUOTED) && is_move(t.value)
}

// What is E008 where a direction is due: a word, a number, a quoted character, `*` or another sign.
#[tactic(auto, unfolding(crate::specs::Views::is_text))]
pub(crate) fn is_text(t: Token) -> bool
    ensures { result ≡ is_text t }
{
    t.kind < kind::STR || matches!(t.kind, kind::STAR | kind::OTHER)
}

// The item that a word starts.
#[tactic(auto, unfolding(crate::specs::Views::keyword_of, crate::specs::Views::lookup))]
pub(crate) fn keyword(t: Token) -> Option<ItemKind>
    ensures { result ≡ keyword_of t }
{
    if t.kind != kind::WORD {
        return None;
    }
    match t.value {
        keyword::MACHINE => Some(ItemKind::Machine),
        keyword::KIND => Some(ItemKind::Kind),
        keyword::INPUT => Some(ItemKind::Input),
        keyword::OUTPUT => Some(ItemKind::Output),
        keyword::TAPES => Some(ItemKind::Tapes),
        keyword::Q => Some(ItemKind::States),
        keyword::SIGMA_SIGN | keyword::SIGMA => Some(ItemKind::InputAlphabet),
        keyword::GAMMA_SIGN | keyword::GAMMA => Some(ItemKind::TapeAlphabet),
        keyword::BLANK => Some(ItemKind::Blank),
        keyword::START => Some(ItemKind::Start),
        keyword::F => Some(ItemKind::Final),
        keyword::DELTA_SIGN | keyword::DELTA => Some(ItemKind::Transition),
        _ => None,
    }
}

// What leads an item's value.
#[tactic(auto, unfolding(crate::specs::Views::lead_of))]
pub(crate) fn lead(kind: ItemKind) -> Lead
    ensures { result ≡ lead_of kind }
{
    match kind {
        ItemKind::Machine | ItemKind::Kind | ItemKind::Input | ItemKind::Output => Lead::Nothing,
        ItemKind::Transition => Lead::Whole,
        _ => Lead::Equals,
    }
}
