// Bytes written into a lent room.
ghost use Rattle.std.specs.Prelude.{◌≡◌, ◌++◌, ◌+◌, ◌-◌, ◌<◌, ◌≤◌, length, take, drop};
ghost use Rattle.store.specs.Store.{two};

// A number of 16 bits at byte i.
pub fn put_word(room: &mut [u8], i: usize, x: usize)
    requires { (i + 1 < length room.old) × (x < 65536) }
    ensures { room.new ≡ take i room.old ++ (two x ++ drop (i + 2) room.old) }
{
    room[i..i + 2].copy_from_slice(&(x as u16).to_be_bytes());
}

// The next two copy by a loop: over std's `copy_from_slice` and `copy_within` the library for C would need memmove from outside.
// All of `from` in front of a room.
pub fn copy(from: &[u8], room: &mut [u8])
    requires { length from.now ≤ length room.old }
    ensures { room.new ≡ from.now ++ drop (length from.now) room.old }
{
    for k in 0..from.len() {
        room[k] = from[k];
    }
}

// What stands behind the first n bytes is moved down over them.
pub fn close_gap(part: &mut [u8], n: usize)
    requires { n ≤ length part.old }
    ensures { part.new ≡ drop n part.old ++ drop (length part.old - n) part.old }
{
    let rest = part.len() - n;
    for k in 0..rest {
        part[k] = part[n + k];
    }
}
