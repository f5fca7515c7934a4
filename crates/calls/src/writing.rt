// Writing words into a lent room.
ghost use Rattle.std.specs.Prelude.{ℕ, List, ◌≡◌, ◌++◌, ◌∷◌, [], ◌+◌, ◌*◌, ◌<◌, ◌≤◌, length};
ghost use Rattle.letters.specs.Writing.{HasRoom, Writes};
ghost use Rattle.calls.specs.Words.{digit, hex_byte, hex_number, word, spaced};
ghost use Rattle.calls.specs.Inside.{two_digits, four_digits};

use letters::Writer;

// A number that a word spells in hexadecimal digits, so many for each.
pub trait Spelled: Copy {
    ghost spelling: { Self → List ℕ };

    ghost digits: { ℕ };

    fn put(self, out: &mut Writer)
        requires { HasRoom out.old digits }
        ensures { Writes out.old out.new (spelling self) };

    ghost long: { (n : Self) → length (spelling n) ≡ digits };
}

impl Spelled for u8 {
    ghost spelling = { hex_byte };

    ghost digits = { 2 };

    ghost long = { two_digits };

    fn put(self, out: &mut Writer) {
        out.byte(digit_of(self / 16));
        out.byte(digit_of(self % 16));
    }
}

impl Spelled for u16 {
    ghost spelling = { hex_number };

    ghost digits = { 4 };

    ghost long = { four_digits };

    fn put(self, out: &mut Writer) {
        ((self / 256) as u8).put(out);
        ((self % 256) as u8).put(out);
    }
}

// Writes a word of numbers, and the byte behind it.
pub fn put_word<T: Spelled>(out: &mut Writer, list: &[T], end: u8)
    requires { HasRoom out.old (T.digits * length list.now + 2) }
    ensures written { Writes out.old out.new (word T.spelling list.now ++ (end ∷ [])) }
    ensures short { out.new.at ≤ out.old.at + T.digits * length list.now + 2 }
{
    if list.len() == 0 {
        out.byte(b'-');
        out.byte(end);
        return;
    }
    for number in list {
        number.put(out);
    }
    out.byte(end);
}

// Writes numbers in decimal, a space behind each.
pub fn put_numbers(out: &mut Writer, list: &[u64])
    requires { HasRoom out.old (21 * length list.now) }
    ensures written { Writes out.old out.new (spaced list.now) }
    ensures short { out.new.at ≤ out.old.at + 21 * length list.now }
{
    for number in list {
        out.number(*number, b' ');
    }
}

fn digit_of(d: u8) -> u8
    requires { d < 16 }
    ensures { result ≡ digit d }
{
    if d < 10 {
        return b'0' + d;
    }
    b'a' + (d - 10)
}
