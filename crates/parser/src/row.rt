// The tokens in a row of words.
ghost use Rattle.std.specs.Prelude.{◌≡◌};
ghost use Rattle.parser.specs.Row.{tokens_in, peek};

use lexer::TOKEN_WORDS;
use tokens::Token;

// A row of words, four for each token; the parsers are its functions. Their number is not beside it, as in
// `Tokens`: a line is read to the end of its row.
#[derive(Clone, Copy)]
pub(crate) struct Row<'a> {
    pub words: &'a [u32],
}

impl Row<'_> {
    // The token at an index; past the last one, a line feed.
    #[tactic(auto, using(crate::proofs::Laws::row_tokens))]
    pub(crate) fn token(self, at: usize) -> Token
        ensures { result ≡ peek (tokens_in self.entry.words.now) at }
    {
        if at < self.words.len() / TOKEN_WORDS {
            return tokens::token_at(self.words, at);
        }
        Token::FEED
    }
}
