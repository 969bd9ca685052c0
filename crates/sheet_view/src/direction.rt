// The direction in which a head moves.
#![tactic(auto)]

ghost use Rattle.std.specs.Prelude.{◌≡◌};
ghost use Rattle.language.specs.Agreement.{dir_of};
ghost use Rattle.language.specs.Plain.{dir_code};
ghost use Rattle.sheet_view.specs.Directions.{dir_in};

#[derive(Clone, Copy, Debug, PartialEq, Eq)]
pub enum Direction {
    Left,
    Right,
    Stay,
}

impl Direction {
    // The letter of a direction, in the plain form and in the listing.
    #[tactic(auto, using(crate::proofs::Directions::letters))]
    pub fn letter(self) -> u8
        ensures { result ≡ dir_code (dir_in self) }
    {
        match self {
            Direction::Left => b'L',
            Direction::Right => b'R',
            Direction::Stay => b'N',
        }
    }
}

// The direction of a number in the sheet, which C reads too: each number above 1 stays.
#[tactic(auto, using(crate::proofs::Directions::directions))]
pub fn direction_of(number: u32) -> Direction
    ensures { dir_in result ≡ dir_of number }
{
    match number {
        0 => Direction::Left,
        1 => Direction::Right,
        _ => Direction::Stay,
    }
}
