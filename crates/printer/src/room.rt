// Putting bytes into a lent room. A byte past the room's end goes nowhere, so a text is measured by putting it into no room. (letters' writer
// asks for room, and one that doesn't would be its twin: so a room and a place in it are handed on.)
ghost use Rattle.letters.specs.Decimal.{decimal};
ghost use Rattle.letters.specs.Rooms.{Puts};
ghost use Rattle.printer.specs.Printing.{Fits};

use form::store;
use letters::Writer;

// The digits of the largest number.
const DIGITS: usize = 20;

// Puts a text at `at`; the answer is the place behind it.
pub fn put(room: &mut [u8], at: usize, w: &[u8]) -> usize
    requires { Fits at w.now }
    ensures { Puts room.old room.new at w.now result }
{
    // Where the room has ended nothing is written: so a text is measured without going over its bytes.
    if room.len() <= at {
        return at + w.len();
    }
    for (k, b) in w.iter().enumerate() {
        store(room, at + k, *b);
    }
    at + w.len()
}

// Puts a number in decimal.
pub fn put_number(room: &mut [u8], at: usize, n: usize) -> usize
    requires { Fits at (decimal n) }
    ensures { Puts room.old room.new at (decimal n) result }
{
    let mut digits = [0u8; DIGITS];
    let mut out = Writer {
        room: &mut digits,
        at: 0,
    };
    out.decimal(n as u64);
    let long = out.at;
    put(room, at, &out.room[..long])
}
