// A piece's table and state written into their rooms.
ghost use Rattle.std.specs.Prelude.{◌≡◌, ◌++◌, ◌+◌, ◌*◌, ◌<◌, ◌≤◌, length, take, drop};
ghost use Rattle.table.specs.Records.{nodes, configurations};
ghost use Rattle.table.specs.Bytes.{trailer};
ghost use Rattle.table.specs.Part.{part_table, part_length};
ghost use Rattle.table.specs.Inside.{Loaded};
ghost use Rattle.taking.specs.Inside.{behind_nodes};

use store::writing::{copy, put_word};
use table::records::{size_at, word_at};

// The part of a table at node j, as a table of its own.
pub fn put_table(table: &[u8], j: usize, room: &mut [u8])
    requires loaded { Loaded table.now × (j < nodes table.now) }
    requires room_long { part_length table.now j ≤ length room.old }
    ensures { room.new
        ≡ part_table table.now j ++ drop (part_length table.now j) room.old }
{
    let n = size_at(table, j);
    copy(&table[6 * j..6 * (j + n)], room);
    put_rest(table, n, &mut room[6 * n..]);
}

// What stands behind the n nodes of such a part: all configurations, and the trailer.
fn put_rest(table: &[u8], n: usize, room: &mut [u8])
    requires loaded { Loaded table.now × (n ≤ nodes table.now) }
    requires room_long { 4 * configurations table.now + 10 ≤ length room.old }
    ensures { room.new
        ≡ behind_nodes table.now n ++ drop (4 * configurations table.now + 10) room.old }
{
    let m = word_at(table, table.len() - 8);
    let v = word_at(table, table.len() - 6);
    let end = table.len() - 10;
    copy(&table[end - 4 * m..end], room);
    put_trailer(n, m, v, &mut room[4 * m..]);
}

// The trailer of n nodes, m configurations and v events.
fn put_trailer(n: usize, m: usize, v: usize, room: &mut [u8])
    requires words_fit { (6 * n + 4 * m < 65536) × (v < 65536) }
    requires room_long { 10 ≤ length room.old }
    ensures { room.new ≡ trailer n m v (6 * n + 4 * m) (4 * m) ++ drop 10 room.old }
{
    put_word(room, 0, n);
    put_word(room, 2, m);
    put_word(room, 4, v);
    put_word(room, 6, 6 * n + 4 * m);
    put_word(room, 8, 4 * m);
}

// The n bytes of the store from byte `from` on.
pub fn put_state(store: &[u8], from: usize, n: usize, room: &mut [u8])
    requires store_long { from + n ≤ length store.now }
    requires room_long { n ≤ length room.old }
    ensures { room.new ≡ take n (drop from store.now) ++ drop n room.old }
{
    copy(&store[from..from + n], room);
}
