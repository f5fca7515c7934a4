// The store of parked pieces (L8): whether it is good (25), what room it has (13), where the newest piece of an event is, how one is taken out.
#![tactic(auto)]

ghost use Rattle.std.specs.Prelude.{◌≡◌, true, ◌++◌, ◌+◌, ◌<◌, ◌≤◌, length, drop, MatchOption};
ghost use Rattle.table.specs.Inside.{Loaded};
ghost use Rattle.store.specs.Store.{in_use, two, store_good, store_room, newest, without};

use good::Pieces;
use table::records::word_at;
use writing::{close_gap, put_word};

pub mod good;
pub mod writing;

// How many bytes of pieces there is room for.
pub fn room_of(store: &[u8]) -> usize
    requires { 2 + in_use store.now ≤ length store.now }
    ensures { result ≡ store_room store.now }
{
    let used = word_at(store, 0);
    let n = store.len();
    if n <= 65537 {
        return n - 2 - used;
    }
    65535 - used
}

// Where the newest piece of an event begins, if there is one.
pub fn newest_at(table: &[u8], store: &[u8], event: usize) -> Option<usize>
    requires loaded { Loaded table.now }
    requires good { store_good table.now store.now ≡ true }
    ensures { MatchOption result (newest table.now store.now event ≡ 0)
        (λ at. (at ≡ newest table.now store.now event) × (0 < at)) }
{
    let pieces = Pieces {
        table,
        store,
        end: 2 + word_at(store, 0),
    };
    pieces.newest_at(event)
}

// So many bytes are in use now.
pub fn put_in_use(store: &mut [u8], used: usize)
    requires { (2 ≤ length store.old) × (used < 65536) }
    ensures { store.new ≡ two used ++ drop 2 store.old }
{
    put_word(store, 0, used);
}

// The n bytes from `at` on are taken out.
pub fn take_out(store: &mut [u8], at: usize, n: usize)
    requires { (2 ≤ at) × (at + n ≤ 2 + in_use store.old) × (2 + in_use store.old ≤ length store.old) }
    ensures { store.new ≡ without n at store.old }
{
    let used = word_at(store, 0);
    close_gap(&mut store[at..2 + used], n);
    put_in_use(store, used - n);
}
