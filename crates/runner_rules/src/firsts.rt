// The row of first rules: for each number of a name two words.
#![tactic(auto)]

ghost use Rattle.std.specs.Prelude.{◌≡◌, ◌+◌, ◌*◌, ◌<◌, length};
ghost use Rattle.std.specs.List.{AllByRecursion};
ghost use Rattle.language.specs.Agreement.{records};
ghost use Rattle.runner_names.specs.Numbers.{final_at};
ghost use Rattle.runner_rules.specs.Firsts.{first_in, first_at, is_no_rule, Says, SaysStates, SaysRules, HasNumber, end_of};

use runner_names::NO_STATE;
use sheet_view::rule::rule_at;
use sheet_view::state::state_at;

// The high word of what is no rule: the low word says then whether the state is final.
const NOWHERE: u32 = u32::MAX;

// The low word for a state that is final.
const FINAL: u32 = 1;

// How many values a word has.
const WORD_VALUES: usize = 1 << 32;

// What the row says of a number: that a state of that name is final; that no rule is for it; or where its first rule begins.
#[derive(Clone, Copy, Debug, PartialEq, Eq)]
pub(crate) enum First {
    Final,
    NoRule,
    At(usize),
}

// What the row says of a number.
#[tactic(auto, using(crate::proofs::Row::says))]
pub(crate) fn first_at(row: &[u32], number: usize) -> First
    requires { 2 * number + 1 < length row.now }
    ensures { result ≡ first_at row.now number }
{
    let low = row[2 * number];
    let high = row[2 * number + 1];
    if high != NOWHERE {
        return First::At(low as usize + WORD_VALUES * high as usize);
    }
    if low == FINAL {
        First::Final
    } else {
        First::NoRule
    }
}

// Whether a rule that is for a number would be its first: none is known, and the state is not final.
fn is_open(row: &[u32], number: usize) -> bool
    requires { 2 * number + 1 < length row.now }
    ensures { result ≡ is_no_rule (first_at row.now number) }
{
    match first_at(row, number) {
        First::NoRule => true,
        First::Final => false,
        First::At(_) => false,
    }
}

// Stores the two words of a number.
fn put(row: &mut [u32], number: usize, low: u32, high: u32)
    requires { 2 * number + 1 < length row.old }
    ensures { Says number (first_in low high) row.old row.new }
{
    row[2 * number] = low;
    row[2 * number + 1] = high;
}

// Whether the state at a position is final; no state is not.
fn is_final(sheet: &[u32], position: u32) -> bool
    ensures { result ≡ final_at sheet.now position }
{
    position != NO_STATE && state_at(sheet, position).is_final
}

// For each number whether its first state is final.
pub(crate) fn of_states(sheet: &[u32], positions: &[u32], row: &mut [u32])
    requires { length row.old ≡ 2 * length positions.now }
    ensures { SaysStates sheet.now positions.now row.new (length positions.now) }
{
    for number in 0..positions.len() {
        let is_final = is_final(sheet, positions[number]);
        put(row, number, u32::from(is_final), NOWHERE);
    }
}

// For each number where its first rule begins, if it is not final; and where the rules end.
pub(crate) fn of_rules(words: &[u32], count: u32, numbers: &[u32], row: &mut [u32]) -> usize
    requires { AllByRecursion (HasNumber numbers.now (length row.old)) (records count words.now) }
    ensures row { SaysRules numbers.now (records count words.now) row.old row.new }
    ensures end { result ≡ end_of 0 (records count words.now) }
{
    let mut at = 0;
    for i in 0..count {
        let rule = rule_at(words, at);
        let number = numbers[rule.from().start as usize] as usize;
        if is_open(row, number) {
            put(
                row,
                number,
                (at % WORD_VALUES) as u32,
                (at / WORD_VALUES) as u32,
            );
        }
        at += rule.length() as usize;
    }
    at
}
