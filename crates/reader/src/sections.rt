// The sections of the sheet before the rules.
ghost use Rattle.std.specs.Prelude.{◌≡◌, ◌-◌, ◌/◌, ◌^◌, ◌≤◌, ◌<◌};
ghost use Rattle.tokens.specs.Listed.{tokens_of};
ghost use Rattle.sheet.specs.Rules.{rule_lengths};
ghost use Rattle.sheet.specs.Puts.{held, Puts};
ghost use Rattle.reader_theorems.specs.Sections.{joined};

use assembler::Assembled;
use infer::finals;
use infer::names::Names;
use infer_symbols::glyphs::Symbols;
use machine::Counts;
use parser::ItemKind;
use sheet::comments;
use sheet::put::Sheet;
use sheet_layout::{PLACE_WORDS, STATE_WORDS, SYMBOL_WORDS};
use tokens::Tokens;

// How many members the sections have, and how many words the rules take behind them.
#[derive(Clone, Copy, Debug, PartialEq, Eq)]
pub struct Measured {
    pub counts: Counts,
    pub rules: usize,
}

// How many members of so many words stand from an index to before another.
fn members(from: usize, to: usize, words: usize) -> u32
    requires between { (from ≤ to)
        × (to < 2 ^ 32) }
    requires words { (0 < words)
        × (words < 2 ^ 32) }
    ensures { result ≡ (to - from) / words }
{
    (to - from) as u32 / words as u32
}

// A text without diagnostics: its tokens, whose lines have entries, and what assembling them gave.
#[derive(Clone, Copy)]
pub struct Source<'t, 'w> {
    pub text: &'t [u8],
    pub tokens: Tokens<'w>,
    pub assembled: &'t Assembled,
}

impl Source<'_, '_> {
    ghost use Rattle.reader.specs.Sheet.{Parted, sections_in, states_in, counts_of};

    // The section of states; nothing where there can be none, for then no names were looked for.
    // Behind the tokens stand the row of first equal words and the marks.
    fn states(&self, row: &mut [u32], sheet: &mut Sheet)
        requires { Parted self.now row.old }
        ensures { Puts (states_in self.now row.old) sheet.old sheet.new }
    {
        let Assembled { first, rules, .. } = self.assembled;
        if !assembler::has_states(self.tokens.count, first, *rules) {
            return;
        }
        let (firsts, marks) = row.split_at_mut(self.text.len() + 1);
        let names = Names {
            tokens: self.tokens,
            firsts,
        };
        names.section(first, marks, sheet);
    }

    // The sections, stored where there is room and counted in any case.
    pub(crate) fn sections(&self, blank: u32, row: &mut [u32], sheet: &mut Sheet) -> Measured
        requires parted { Parted self.now row.old }
        requires front { (held sheet.old).at ≡ 0 }
        ensures written { Puts (joined (sections_in self.now blank row.old)) sheet.old sheet.new }
        ensures counts { result.counts ≡ counts_of (sections_in self.now blank row.old) self.now.assembled.now.rules }
        ensures lengths { result.rules ≡ rule_lengths (tokens_of self.now.tokens) }
    {
        let tokens = self.tokens;
        let first = &self.assembled.first;
        let symbols = Symbols { tokens, blank };
        self.states(row, sheet);
        let states = sheet.at();
        let n = symbols.gamma_codes(self.text, first, row);
        symbols.sigma(&row[..n], first, sheet);
        let sigma = sheet.at();
        symbols.gamma(&row[..n], first, sheet);
        let gamma = sheet.at();
        finals::places(&tokens, first[ItemKind::Final as usize], sheet);
        let finals = sheet.at();
        let h = comments::header(sheet, &tokens);
        let header = sheet.at();
        comments::trailing(sheet, &tokens, h.left);
        let trailing = sheet.at();
        let counts = Counts {
            states: members(0, states, STATE_WORDS),
            sigma: members(states, sigma, SYMBOL_WORDS),
            gamma: members(sigma, gamma, SYMBOL_WORDS),
            finals: members(gamma, finals, PLACE_WORDS),
            header: members(finals, header, PLACE_WORDS),
            trailing: members(header, trailing, PLACE_WORDS),
            rules: self.assembled.rules as u32,
        };
        Measured {
            counts,
            rules: h.rules,
        }
    }
}
