// A machine in the sheet, and its head; or the words that it needs.
ghost use Rattle.std.specs.Prelude.{◌≡◌, ℕ, length};
ghost use Rattle.language.specs.Outcome.{zeros, read_machine};
ghost use Rattle.reader_theorems.specs.Ready.{lines_of};
ghost use Rattle.reader_answer.specs.Answer.{read_in};
ghost use Rattle.reader.specs.Sheet.{Assembles};

use crate::sections::{Measured, Source};
use assembler::{Assembled, FIRSTS};
use infer::states;
use parser::ItemKind;
use reader_answer::{Answer, Refusal};
use sheet::expand;
use sheet::put::Sheet;
use sheet_layout::STATE_WORDS;
use tokens::Tokens;

// The machine of a text without diagnostics. Only the words behind it are cleared: those that it takes are written over.
// Work and the number of its tokens are as assembly leaves them; here they become the tokens and the words behind.
pub fn machine<'t>(
    text: &'t [u8],
    work: &mut [u32],
    count: usize,
    a: &'t Assembled,
    sheet: &mut [u32],
) -> Result<Answer, Refusal>
    requires { Assembles text.now count work.old a.now }
    ensures { (n : ℕ) → read_in result (zeros n) sheet.new ≡ read_machine (lines_of text.now) n (length sheet.old) }
{
    let size = text.len() + 1;
    let (words, row) = work.split_at_mut(FIRSTS * size);
    let tokens = Tokens { words, count };
    let source = Source {
        text,
        tokens,
        assembled: a,
    };
    let blank = reader_head::blank_at(&tokens, a.first[ItemKind::Blank as usize]);
    let room = sheet.len();
    let mut page = Sheet::new(sheet, 0);
    let Measured { counts, rules } = source.sections(blank, row, &mut page);
    let needed = page.at() + rules;
    if room < needed {
        sheet.fill(0);
        return Err(Refusal::SheetTooShort(needed as u64));
    }
    let (entries, members) = row.split_at_mut(size);
    expand::rules(&mut page, &tokens, blank, entries, members);
    let states = STATE_WORDS * counts.states as usize;
    let state = states::first_state(sheet, 0, states);
    let head = reader_head::head(&tokens, &a.first, state, counts);
    sheet[needed..].fill(0);
    Ok(Answer::Machine(head))
}
