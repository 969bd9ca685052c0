// Line and column of an offset of a text, as an editor counts them.
#![tactic(auto)]

ghost use Rattle.std.specs.Prelude.{◌≡◌, ◌<◌};
ghost use Rattle.positions.specs.Positions.{line_column};

use chars::char_at;

// A line and a column, both counted from 1.
#[derive(Clone, Copy, Debug, PartialEq, Eq)]
pub struct Position {
    pub line: usize,
    pub column: usize,
}

impl Position {
    ghost use Rattle.positions.specs.Steps.{next};

    // The position behind a character.
    #[tactic(auto, using(std::proofs::Common::tests), unfolding(crate::specs::Steps::next))]
    fn next(self, c: u32) -> Self
        requires { (self.line < usize.MAX)
            × (self.column < usize.MAX) }
        ensures { result ≡ next self c }
    {
        if c == u32::from(b'\n') {
            return Self {
                line: self.line + 1,
                column: 1,
            };
        }
        Self {
            column: self.column + 1,
            ..self
        }
    }
}

// Line and column of an offset.
#[tactic(auto, using(crate::proofs::Scans::scan))]
pub fn line_column(text: &[u8], offset: u32) -> Position
    ensures { result ≡ line_column text.now offset }
{
    let before = &text[..(offset as usize).min(text.len())];
    let mut p = Position { line: 1, column: 1 };
    let mut i = 0;
    while let Some((c, after)) = char_at(before, i) {
        p = p.next(c);
        i = after;
    }
    p
}
