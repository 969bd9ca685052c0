// The tapes of a machine in a row of lent cells, for one to three tapes: what stands under the heads, what is written there, and
// where heads move. A head is its offset from the lowest cell of its tape, its position and half. There is a field for each tape:
// a loop over an array of tapes takes longer in each step.
#![tactic(auto)]

ghost use Rattle.std.specs.Prelude.{◌≡◌, ◌*◌, ◌^◌, ◌≤◌, ◌<◌, length, replicate, option_map};
ghost use Rattle.language.specs.Agreement.{dir_of};
ghost use Rattle.running.specs.Tape.{half, tape_cells, blank_tapes};
ghost use Rattle.running.specs.Step.{scanned, move, moved, written_under};
ghost use Rattle.runner_tapes.specs.Shown.{heads_of, symbols_of, dirs_of, Stands};

// The offset of each head.
#[derive(Clone, Copy)]
pub struct Heads {
    pub first: u64,
    pub second: u64,
    pub third: u64,
}

// A symbol for each tape.
#[derive(Clone, Copy)]
pub struct Symbols {
    pub first: u32,
    pub second: u32,
    pub third: u32,
}

// The number of a direction for each tape, as the sheet has it: 0 is left, 1 is right, and any other stays.
#[derive(Clone, Copy)]
pub struct Moves {
    pub first: u32,
    pub second: u32,
    pub third: u32,
}

// Half a tape, 0 where there are none.
#[tactic(auto, using(crate::proofs::Blank::halves))]
pub fn half(cells: usize, tapes: u8) -> u64
    ensures { result ≡ half cells tapes }
{
    if tapes == 0 {
        return 0;
    }
    (cells / (2 * tapes as usize)) as u64
}

// How many cells the tapes take.
#[tactic(auto, using(crate::proofs::Blank::room))]
pub fn tape_cells(cells: usize, tapes: u8) -> usize
    ensures { (result ≡ tape_cells (half cells tapes) tapes)
        × (result ≤ cells) }
{
    let half = half(cells, tapes) as usize;
    2 * half * tapes as usize
}

// Makes the cells of the tapes blank. Cells left over stay as they are.
pub fn blank_tapes(cells: &mut [u32], tapes: u8, blank: u32)
    ensures { cells.new ≡ blank_tapes (half (length cells.old) tapes) tapes blank cells.old }
{
    let own = tape_cells(cells.len(), tapes);
    cells[..own].fill(blank);
}

// Every head at position 0.
#[tactic(auto, using(crate::proofs::Blank::starts))]
pub fn start(half: u64, tapes: u8) -> Heads
    requires { tapes ≤ 3 }
    ensures { heads_of tapes result ≡ replicate tapes half }
{
    Heads {
        first: half,
        second: half,
        third: half,
    }
}

// One head moved, by the number of a direction.
#[tactic(auto, using(crate::proofs::Ways::ways))]
pub fn move_head(half: u64, direction: u32, head: u64) -> Option<u64>
    requires { (head < 2 * half)
        × (2 * half < 2 ^ 64) }
    ensures { result ≡ move half (dir_of direction) head }
{
    match direction {
        0 => { if head == 0 { None } else { Some(head - 1) } }
        1 => {
            if head + 1 < 2 * half {
                Some(head + 1)
            } else {
                None
            }
        }
        _ => Some(head),
    }
}

// The symbols under the heads.
#[tactic(auto, using(crate::proofs::Cells::in_row))]
pub fn scanned(cells: &[u32], half: u64, tapes: u8, heads: Heads) -> Symbols
    requires { (Stands tapes half heads)
        × (tape_cells half tapes ≤ length cells.now) }
    ensures { symbols_of tapes result ≡ scanned half 0 (heads_of tapes heads) cells.now }
{
    let first = cells[heads.first as usize];
    if tapes < 2 {
        return Symbols {
            first,
            second: 0,
            third: 0,
        };
    }
    let second = cells[(2 * half + heads.second) as usize];
    if tapes < 3 {
        return Symbols {
            first,
            second,
            third: 0,
        };
    }
    let third = cells[(4 * half + heads.third) as usize];
    Symbols {
        first,
        second,
        third,
    }
}

// All heads moved, or none of them.
#[tactic(auto, using(crate::proofs::AllHeads::together))]
pub fn moved(half: u64, tapes: u8, moves: Moves, heads: Heads) -> Option<Heads>
    requires { (Stands tapes half heads)
        × (2 * half < 2 ^ 64) }
    ensures { option_map (heads_of tapes) result ≡ moved half (dirs_of tapes moves) (heads_of tapes heads) }
{
    let Some(first) = move_head(half, moves.first, heads.first) else {
        return None;
    };
    if tapes < 2 {
        return Some(Heads { first, ..heads });
    }
    let Some(second) = move_head(half, moves.second, heads.second) else {
        return None;
    };
    if tapes < 3 {
        return Some(Heads {
            first,
            second,
            ..heads
        });
    }
    let Some(third) = move_head(half, moves.third, heads.third) else {
        return None;
    };
    Some(Heads {
        first,
        second,
        third,
    })
}

// Writes a symbol under each head.
#[tactic(auto, using(crate::proofs::Cells::in_row))]
pub fn write(cells: &mut [u32], half: u64, tapes: u8, heads: Heads, symbols: Symbols)
    requires { (Stands tapes half heads)
        × (tape_cells half tapes ≤ length cells.old) }
    ensures { cells.new ≡ written_under half 0 (symbols_of tapes symbols) (heads_of tapes heads) cells.old }
{
    cells[heads.first as usize] = symbols.first;
    if tapes < 2 {
        return;
    }
    cells[(2 * half + heads.second) as usize] = symbols.second;
    if tapes < 3 {
        return;
    }
    cells[(4 * half + heads.third) as usize] = symbols.third;
}
