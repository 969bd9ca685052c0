// Bytes appended to a lent row: each is stored where there is room and counted in any case, so that one body counts and writes.
#![tactic(auto)]

ghost use Rattle.std.specs.Prelude.{◌≡◌, [], ◌∷◌, ◌+◌, ◌%◌, ◌<◌};
ghost use Rattle.chars.specs.Utf8.{encode_one};
ghost use Rattle.emit.specs.Output.{output, appended};
ghost use Rattle.emit.specs.Decimal.{decimal};

// Where bytes are appended: the row lent for them, and how many were appended so far. With an empty row, `&mut row[..0]`, they
// are only counted.
// Crate sheet's Sheet is this of words: one struct for both would share the fields and a test for room, and what is stored would
// stay defined twice.
#[derive(Drop)]
pub struct Output<'a> {
    row: &'a mut [u8],
    at: usize,
}

impl<'a> Output<'a> {
    ghost use Rattle.emit.specs.Appends.{held, lent_row, Appends};

    pub fn new(row: &'a mut [u8]) -> Output<'a>
        ensures empty { held result ≡ output row.old 0 }
        ensures same_row { lent_row result ≡ row.entry.ghost_name }
    {
        Output { row, at: 0 }
    }

    // How many bytes were appended.
    pub fn count(&self) -> usize
        ensures { result ≡ (held self.now).at }
    {
        self.at
    }

    // A byte, appended.
    pub fn byte(&mut self, b: u8)
        ensures { Appends (b ∷ []) self.old self.new }
    {
        let end = self.at.saturating_add(1);
        if self.at < self.row.len() {
            self.row[self.at] = b;
        }
        self.at = end;
    }

    // The bytes of a part of a text.
    pub fn bytes(&mut self, part: &[u8])
        ensures { Appends part.now self.old self.new }
    {
        self.at = put(self.row, self.at, part);
    }

    // A code point in UTF-8; it may be a surrogate, which no `char` is.
    pub fn code_point(&mut self, c: u32)
        requires { c < 0x110000 }
        ensures { Appends (encode_one c) self.old self.new }
    {
        match chars::len_utf8(c) {
            1 => self.byte(c as u8),
            2 => self.bytes(&[(0xC0 + c / 64) as u8, tail(c)]),
            3 => self.bytes(&[(0xE0 + c / 64 / 64) as u8, tail(c / 64), tail(c)]),
            _ => self.bytes(&[
                (0xF0 + c / 64 / 64 / 64) as u8,
                tail(c / 64 / 64),
                tail(c / 64),
                tail(c),
            ]),
        }
    }

    // A number in decimal. Its Display would write it to an impl of fmt::Write, whose answer has to be dropped here: that is no
    // plainer.
    // How many digits it has is known only at the last one: no range counts them.
    pub fn decimal(&mut self, n: u64)
        ensures { Appends (decimal n) self.old self.new }
    {
        let mut digits = [0u8; 20];
        let mut i = 20;
        let mut left = n;
        while 10 <= left {
            i -= 1;
            digits[i] = (0x30 + left % 10) as u8;
            left /= 10;
        }
        i -= 1;
        digits[i] = (0x30 + left) as u8;
        self.bytes(&digits[i..]);
    }
}

// A part put into a row at an index, as far as there is room; the index behind it, had there been room for all.
// By a loop: with `copy_from_slice` a library for C asks for memmove from outside.
fn put(row: &mut [u8], at: usize, part: &[u8]) -> usize
    ensures { output row.new result ≡ appended (output row.old at) part.now }
{
    let end = at.saturating_add(part.len());
    if row.len() <= at {
        return end;
    }
    let n = part.len().min(row.len() - at);
    for i in 0..n {
        row[at + i] = part[i];
    }
    end
}

// The lowest six bits of c as a continuation byte.
fn tail(c: u32) -> u8
    ensures { result ≡ 0x80 + c % 64 }
{
    (0x80 + c % 64) as u8
}
