// Texts and numbers as bytes: the definitions that the listing and the written form share, and the writer that puts them into a lent room.
#![tactic(auto)]

ghost use Rattle.std.specs.Prelude.{ℕ, ◌≡◌, get_or, ◌∷◌, [], ◌++◌, ◌+◌, ◌≤◌, length};
ghost use Rattle.letters.specs.Decimal.{decimal, FigureOf};
ghost use Rattle.letters.specs.Writing.{HasRoom, Writes};

mod number;

use number::put_digits;

// A lent room, and the place in it where the next byte goes.
#[derive(Drop)]
pub struct Writer<'a> {
    pub room: &'a mut [u8],
    pub at: usize,
}

impl Writer<'_> {
    // Writes a byte.
    pub fn byte(&mut self, byte: u8)
        requires { HasRoom self.old 1 }
        ensures { Writes self.old self.new (byte ∷ []) }
    {
        self.room[self.at] = byte;
        self.at += 1;
    }

    // Writes a text.
    pub fn text(&mut self, text: &[u8])
        requires { HasRoom self.old (length text.now) }
        ensures { Writes self.old self.new text.now }
    {
        let end = self.at + text.len();
        self.room[self.at..end].copy_from_slice(text);
        self.at = end;
    }

    // Writes a number in decimal.
    pub fn decimal(&mut self, n: u64)
        requires { HasRoom self.old (length (decimal n)) }
        ensures { Writes self.old self.new (decimal n) }
    {
        self.at = put_digits(self.room, self.at, n);
    }

    // Writes a number and the byte behind it.
    pub fn number(&mut self, n: u64, end: u8)
        requires { HasRoom self.old (length (decimal n) + 1) }
        ensures { Writes self.old self.new (decimal n ++ (end ∷ [])) }
    {
        self.decimal(n);
        self.byte(end);
    }
}

// The value of a decimal digit.
pub fn digit(byte: u8) -> Option<usize>
    ensures { FigureOf byte result }
{
    match byte {
        b'0'..=b'9' => Some((byte - b'0') as usize),
        _ => None,
    }
}

// A room of zeros. So large an array gets a proof only where a contract tells its length: in a program's `main` the check runs out of stack.
pub fn zeros<const N: usize>() -> [u8; N]
    ensures long { length result ≡ N }
    ensures zeros { (i : ℕ) → get_or result i 0 ≡ 0 }
{
    [0; N]
}
