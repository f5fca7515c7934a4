// Bytes in a text: where one stands, what it parts, and how a text gets into a room.
#![tactic(auto)]

ghost use Rattle.std.specs.Prelude.{◌≡◌, ◌+◌, ◌≤◌, ◌<◌, ◌++◌, length, take, drop, IfSome, MatchOption};
ghost use Rattle.octets.specs.Octets.{index_of, slice};

use memchr::memchr;

// The first place of a byte from `from` on and before `to`, if there is one.
pub fn find(text: &[u8], from: usize, to: usize, byte: u8) -> Option<usize>
    requires { (from ≤ to) × (to ≤ length text.now) }
    ensures { MatchOption
        result
        (to ≡ from + index_of byte (slice from to text.now))
        (λ place. (place ≡ from + index_of byte (slice from to text.now)) × (from ≤ place) × (place < to)) }
{
    // A match in place of `?`, so that an edit can turn what is answered where the byte doesn't stand, and nothing else.
    match memchr(byte, &text[from..to]) {
        Some(k) => Some(from + k),
        None => None,
    }
}

// What stands before the first such byte of a text and what stands behind it, if there is one.
pub fn split_once(text: &[u8], byte: u8) -> Option<(&[u8], &[u8])>
    ensures split { MatchOption
        result
        (length text.now ≡ index_of byte text.now)
        (λ parts. (index_of byte text.now < length text.now)
        × (parts.0.now ≡ take (index_of byte text.now) text.now)
        × (parts.1.now ≡ drop (index_of byte text.now + 1) text.now)) }
    ensures shorter { IfSome result (λ parts. length parts.1.now + 1 + length parts.0.now ≡ length text.now) }
{
    let at = find(text, 0, text.len(), byte)?;
    Some((&text[..at], &text[at + 1..]))
}

// Copies a text to the start of a room and answers its length.
pub fn copy(text: &[u8], room: &mut [u8]) -> usize
    requires { length text.now ≤ length room.old }
    ensures value { result ≡ length text.now }
    ensures room_after { room.new ≡ text.now ++ drop (length text.now) room.old }
{
    room[..text.len()].copy_from_slice(text);
    text.len()
}
