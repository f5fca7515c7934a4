// Numbers in decimal, put into a lent room. Digits are put four at a time: one by one through the writer, a list of numbers takes half as long again.
ghost use Rattle.std.specs.Prelude.{◌≡◌, ◌+◌, ◌<◌, ◌≤◌, length};
ghost use Rattle.std.proofs.lemmas.List.Edits.{sets};
ghost use Rattle.letters.specs.Decimal.{decimal};
ghost use Rattle.letters.specs.Rooms.{Puts};
ghost use Rattle.letters.specs.Inside.{pair, four};

// Puts a number at a place of a room, and answers the place behind it.
pub fn put_digits(room: &mut [u8], at: usize, n: u64) -> usize
    requires { at + length (decimal n) ≤ length room.old }
    ensures { Puts room.old room.new at (decimal n) result }
{
    if n < 10000 {
        return put_short(room, at, n);
    }
    put_long(room, at, n)
}

// Puts a number of at most four digits.
fn put_short(room: &mut [u8], at: usize, n: u64) -> usize
    requires { (n < 10000) × (at + length (decimal n) ≤ length room.old) }
    ensures { Puts room.old room.new at (decimal n) result }
{
    if n < 10 {
        room[at] = 48 + n as u8;
        return at + 1;
    }
    if n < 100 {
        put_pair(room, at, n);
        return at + 2;
    }
    if n < 1000 {
        let hundreds = n / 100;
        room[at] = 48 + hundreds as u8;
        put_pair(room, at + 1, n - 100 * hundreds);
        return at + 3;
    }
    put_four(room, at, n);
    at + 4
}

// Puts a number of more than four digits: the last four go behind the others.
fn put_long(room: &mut [u8], at: usize, n: u64) -> usize
    requires { (10000 ≤ n) × (at + length (decimal n) ≤ length room.old) }
    ensures { Puts room.old room.new at (decimal n) result }
{
    let high = n / 10000;
    if high < 10000 {
        let to = put_short(room, at, high);
        put_four(room, to, n % 10000);
        return to + 4;
    }
    let to = put_long(room, at, high);
    put_four(room, to, n % 10000);
    to + 4
}

// Puts four digits, zeros in front.
fn put_four(room: &mut [u8], at: usize, n: u64)
    requires { (n < 10000) × (at + 3 < length room.old) }
    ensures { room.new ≡ sets room.old at (four n) }
{
    let hundreds = n / 100;
    put_pair(room, at, hundreds);
    put_pair(room, at + 2, n - 100 * hundreds);
}

// Puts two digits, a zero in front.
fn put_pair(room: &mut [u8], at: usize, n: u64)
    requires { (n < 100) × (at + 1 < length room.old) }
    ensures { room.new ≡ sets room.old at (pair n) }
{
    room[at] = 48 + (n / 10) as u8;
    room[at + 1] = 48 + (n % 10) as u8;
}
