// A node's own four bytes in the whole state, node i's from byte 4i on: the phase, a Par's flags, a Repeat's count (16, big-endian).
ghost use Rattle.std.specs.Prelude.{◌≡◌, ◌&&◌, cond, ◌+◌, ◌-◌, ◌*◌, ◌<◌, ◌≤◌, ◌/◌, ◌%◌, eqb, length, set, replicate};
ghost use borrow.Rule.Slice.PartMut.{put_mid};

use state::clear;

// Where the flags and the count stand behind the phase.
pub const FLAGS: usize = 1;

pub const COUNT: usize = 2;

// Phases by name: reads as Nothing; in the second child; in the then branch; begun; Until*; Local plus.
pub const GONE: u8 = 3;

pub const SECOND: u8 = 2;

pub const THEN: u8 = 1;

pub const BEGUN: u8 = 1;

pub const STARRED: u8 = 1;

pub const PLUS: u8 = 1;

// Whether both branches of a Par are suspended, by its phase and its flags.
pub fn both_suspended(phase: u8, flags: u8) -> bool
    ensures { result ≡ (eqb phase 0 && eqb flags 0) }
{
    phase == 0 && flags == 0
}

// The phase of a When that has chosen.
pub fn chosen(second: bool) -> u8
    ensures { result ≡ cond second 2 1 }
{
    if second { SECOND } else { THEN }
}

// How often the body of a begun repetition is still to be run, the run that it is in counted, by its count.
pub fn turns_left(high: u8, low: u8) -> usize
    ensures { result ≡ high * 256 + low + 1 }
{
    usize::from(u16::from_be_bytes([high, low])) + 1
}

// A Repeat at byte `at` has begun, k runs being still to begin.
pub fn begin_turn(state: &mut [u8], at: usize, k: usize)
    requires { (at + 3 < length state.old) × (k < 65536) }
    ensures { state.new ≡ set (set (set state.old at 1) (at + 2) (k / 256)) (at + 3) (k % 256) }
{
    state[at] = BEGUN;
    let [high, low] = (k as u16).to_be_bytes();
    state[at + COUNT] = high;
    state[at + COUNT + 1] = low;
}

// A Repeat at byte `at` has ended.
pub fn end_turns(state: &mut [u8], at: usize)
    requires { at + 3 < length state.old }
    ensures { state.new ≡ set (set (set state.old at 0) (at + 2) 0) (at + 3) 0 }
{
    state[at] = 0;
    state[at + COUNT] = 0;
    state[at + COUNT + 1] = 0;
}

// A subtree's bytes, a middle part of the state, become fresh.
pub fn clear_part(state: &mut [u8], from: usize, till: usize)
    requires { (from ≤ till) × (till ≤ length state.old) }
    ensures { state.new ≡ put_mid from (till - from) state.old (replicate (till - from) 0) }
{
    clear(&mut state[from..till]);
}
