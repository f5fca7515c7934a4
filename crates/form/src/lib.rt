// The written form of programs as definitions (specs/) with their laws (proofs/), and what its readers share; the calls that
// read and print it are crate text's.
#![tactic(auto)]

pub mod names;

ghost use Rattle.std.specs.Prelude.{◌-◌, ◌<◌, false, true, ◌≡◌, MatchOption, set};
ghost use Rattle.form.specs.Inside.Machine.{is_digit_byte};

use letters::digit;

// What a text tells of its table: nodes, configuration records, and one above the highest event named.
#[derive(Clone, Copy)]
pub struct Sizes {
    pub nodes: usize,
    pub tests: usize,
    pub events: usize,
}

// The value of a digit, as letters reads it, told by the machine's test of a byte; none of another byte.
pub fn digit_value(b: u8) -> Option<usize>
    ensures { MatchOption result (is_digit_byte b ≡ false) (λ d. (is_digit_byte b ≡ true) × (d ≡ b - 48) × (d < 10)) }
{
    digit(b)
}

// Byte `at` becomes b, if there is one. (`get_mut` leaves a room of which the check doesn't know what it holds.)
pub fn store(room: &mut [u8], at: usize, b: u8)
    ensures { room.new ≡ set room.old at b }
{
    if at < room.len() {
        room[at] = b;
    }
}
