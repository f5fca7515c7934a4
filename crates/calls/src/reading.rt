// Reading words: numbers in lowercase hexadecimal, and a list of events. What isn't such a word, or has no place in its room, is none.
ghost use Rattle.std.specs.Prelude.{◌≡◌, ◌+◌, ◌*◌, ◌<◌, ◌≤◌, length, get_or};
ghost use Rattle.calls.specs.Words.{figure16, byte_at, number_at, is_dash, BytesIn, RowIn, PairIn, ListIn};
ghost use Rattle.calls.specs.Inside.{fitting, Below};

use events::EventSet;
use octets::split_once;

// Reads bytes into the start of a room, and answers how many.
pub fn read_bytes(text: &[u8], room: &mut [u8]) -> Option<usize>
    ensures { BytesIn text.now room.old room.new result }
{
    if is_dash(text) {
        return Some(0);
    }
    let n = text.len() / 2;
    if !fits(text.len(), n, 2 * n, room.len()) {
        return None;
    }
    // A place of the room and its digits go by one index.
    for i in 0..n {
        let byte = byte_at(text, 2 * i)?;
        room[i] = byte;
    }
    Some(n)
}

// Reads the bytes of two words, a space between them, into the starts of two rooms, and answers how many each has.
pub fn read_pair(text: &[u8], first: &mut [u8], second: &mut [u8]) -> Option<(usize, usize)>
    ensures { PairIn text.now first.old second.old first.new second.new result }
{
    let (first_word, second_word) = split_once(text, b' ')?;
    let n = read_bytes(first_word, first)?;
    let m = read_bytes(second_word, second)?;
    Some((n, m))
}

// Reads a row's numbers into the start of a room, and answers how many. (Beside `read_bytes`: one function over the type of a number would ask of it
// a width, a reader and two ghost members for what digits spell, more than the three lines that both share.)
pub fn read_row(text: &[u8], room: &mut [u16]) -> Option<usize>
    ensures { RowIn text.now room.old room.new result }
{
    if is_dash(text) {
        return Some(0);
    }
    let n = text.len() / 4;
    if !fits(text.len(), n, 4 * n, room.len()) {
        return None;
    }
    // A place of the room and its digits go by one index.
    for i in 0..n {
        let number = number_at(text, 4 * i)?;
        room[i] = number;
    }
    Some(n)
}

// Reads a list of events.
pub fn read_list(text: &[u8]) -> Option<EventSet>
    ensures { ListIn text.now result }
{
    if is_dash(text) {
        return Some(EventSet::empty());
    }
    listing::read_events(text, b',')
}

// Whether a text of `long` bytes has n numbers, `whole` bytes, and a room of `most` places takes them.
fn fits(long: usize, n: usize, whole: usize, most: usize) -> bool
    ensures { result ≡ fitting long n whole most }
{
    (0 < n) & ((whole == long) & (n <= most))
}

fn is_dash(text: &[u8]) -> bool
    ensures { result ≡ is_dash text.now }
{
    if text.len() == 1 {
        return text[0] == b'-';
    }
    false
}

// The number of four digits.
fn number_at(text: &[u8], at: usize) -> Option<u16>
    requires { at + 3 < length text.now }
    ensures { Below 65536 (number_at text.now at) result }
{
    let high = byte_at(text, at)?;
    let low = byte_at(text, at + 2)?;
    Some(256 * high as u16 + low as u16)
}

// The number of two digits.
fn byte_at(text: &[u8], at: usize) -> Option<u8>
    requires { at + 1 < length text.now }
    ensures { Below 256 (byte_at text.now at) result }
{
    let high = hex_digit(text[at])?;
    let low = hex_digit(text[at + 1])?;
    Some(16 * high + low)
}

fn hex_digit(byte: u8) -> Option<u8>
    ensures { Below 16 (figure16 byte) result }
{
    match byte {
        b'0'..=b'9' => Some(byte - b'0'),
        b'a'..=b'f' => Some(byte - b'a' + 10),
        _ => None,
    }
}
