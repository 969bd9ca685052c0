// The name of a state, from a sheet and the text that it is of.
#![tactic(auto)]

ghost use Rattle.std.specs.Prelude.{◌≡◌, ◌+◌};
ghost use Rattle.language.specs.StateName.{state_name};
ghost use Rattle.state_names.specs.Starts.{state_start};

use lexer::names::part_of;
use sheet_layout::STATE_WORDS;

// The name of state i: a part of the text, empty if the state's words are outside the sheet or its place is not inside the text.
pub fn state_name<'a>(sheet: &[u32], text: &'a [u8], i: usize) -> &'a [u8]
    ensures bytes { result.now ≡ state_name sheet.now text.now i }
    ensures place { (result.ref_ptr.0 ≡ text.entry.ref_ptr.0)
        × (result.ref_ptr.1 ≡ text.entry.ref_ptr.1 + state_start sheet.now text.now i) }
{
    match sheet.as_chunks::<STATE_WORDS>().0.get(i) {
        Some([start, end, _]) => part_of(text, *start as usize, *end as usize),
        None => &text[..0],
    }
}
