// The arguments of the program `run`: what it may do at most.
#![tactic(auto)]

ghost use Rattle.std.specs.Prelude.{◌≡◌};
ghost use Rattle.run_arguments.specs.Arguments.{number_of};

// The most cells that the program has.
pub const MAX_CELLS: usize = 262144;

// What the program may do at most: so many steps, on so many cells.
#[derive(Clone, Copy, Debug, PartialEq, Eq)]
pub struct Limits {
    pub steps: u64,
    pub cells: usize,
}

// The number that digits say in decimal; none where there are no digits, or it has more than 64 bits.
fn number(digits: &[u8]) -> Option<u64>
    ensures { result ≡ number_of digits.now }
{
    if digits.is_empty() {
        return None;
    }
    let mut value: u64 = 0;
    for digit in digits {
        if !digit.is_ascii_digit() {
            return None;
        }
        value = value.checked_mul(10)?.checked_add((*digit - b'0').into())?;
    }
    Some(value)
}

impl Limits {
    ghost use Rattle.run_arguments.specs.Arguments.{with_option};

    // What it may do where no argument says otherwise.
    pub const DEFAULT: Limits = Limits {
        steps: 10_000_000_000,
        cells: MAX_CELLS,
    };

    // The limits with an option and its number; none where the option is unknown, or has no such number.
    #[tactic(auto, unfolding(crate::specs::Arguments::with_option))]
    pub fn with_option(self, name: &[u8], value: &[u8]) -> Option<Limits>
        ensures { result ≡ with_option self name.now value.now }
    {
        if name == b"--steps".as_slice() {
            return Some(Limits {
                steps: number(value)?,
                cells: self.cells,
            });
        }
        if name != b"--cells".as_slice() {
            return None;
        }
        let cells = number(value)?;
        if cells > MAX_CELLS as u64 {
            return None;
        }
        Some(Limits {
            steps: self.steps,
            cells: cells as usize,
        })
    }
}
