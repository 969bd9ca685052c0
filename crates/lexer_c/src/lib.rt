// The lexer for callers in other languages: lexer's call, exported from a static library.
#![tactic(auto)]

ghost use Rattle.std.specs.Prelude.{◌≡◌};
ghost use Rattle.lexer.specs.Words.{tokenized};

// The tokens of a text, at the front of work; a text that is too long or work that is too short is left as it is, and the answer is all ones.
#[unsafe(no_mangle)]
pub extern "C" fn pevzoncs_tokenize(text: &[u8], work: &mut [u32]) -> usize
    ensures { (result, work.new) ≡ tokenized text.now work.old }
{
    lexer::pevzoncs_tokenize(text, work)
}
