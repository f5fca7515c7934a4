// Taking a parked piece out of a store (L8): it leaves as a table and a state of its own, and the store closes the gap.
#![tactic(auto)]

ghost use Rattle.std.specs.Prelude.{◌≡◌};
ghost use Rattle.taking.specs.declared.TakeRefusal.TheVariants.{Table};
ghost use Rattle.taking.specs.Taking.{Took};
ghost use Rattle.taking.specs.Inside.{Holding, TookAt};

use crate::pieces::{put_state, put_table};
use store::good::store_good;
use store::{newest_at, take_out};
use table::records::{size_at, word_at};
use table::{TableRefusal, check};

pub mod numbers;
mod pieces;

// What a taking answers: the lengths of the table and of the state, each at the start of its room.
#[derive(Clone, Copy, Debug, Default, PartialEq, Eq)]
pub struct Taken {
    pub table: usize,
    pub state: usize,
}

// Why nothing was taken; specs/Taking.antt has each one's number and index.
#[derive(Clone, Copy, PartialEq, Eq, Debug)]
pub enum TakeRefusal {
    // The table was refused, and so.
    Table(TableRefusal),
    BadStore,
    NoPiece,
    NoRoom,
}

impl From<TableRefusal> for TakeRefusal {
    ghost from_gives = { λ why r. r ≡ Table why };

    fn from(why: TableRefusal) -> TakeRefusal {
        TakeRefusal::Table(why)
    }
}

// Takes the newest piece of an event: refusals 1 to 8, 25, 14 and 15. Both rooms are written once no refusal is left, and so is the store.
pub fn take(
    table: &[u8],
    store: &mut [u8],
    event: usize,
    table_room: &mut [u8],
    state_room: &mut [u8],
) -> Result<Taken, TakeRefusal>
    ensures { Took table.now store.old event table_room.old state_room.old
        store.new table_room.new state_room.new result }
{
    check(table)?;
    if !store_good(table, store) {
        return Err(TakeRefusal::BadStore);
    }
    let at = newest_at(table, store, event).ok_or(TakeRefusal::NoPiece)?;
    take_at(table, store, at, table_room, state_room)
}

// The piece at byte `at`.
fn take_at(
    table: &[u8],
    store: &mut [u8],
    at: usize,
    table_room: &mut [u8],
    state_room: &mut [u8],
) -> Result<Taken, TakeRefusal>
    requires { Holding table.now store.old at }
    ensures { TookAt table.now store.old at table_room.old state_room.old
        store.new table_room.new state_room.new result }
{
    let j = word_at(store, at + 2);
    let n = size_at(table, j);
    let m = word_at(table, table.len() - 8);
    let long = 6 * n + 4 * m + 10;
    if table_room.len() < long {
        return Err(TakeRefusal::NoRoom);
    }
    if state_room.len() < 4 * n {
        return Err(TakeRefusal::NoRoom);
    }
    put_table(table, j, table_room);
    put_state(store, at + 4, 4 * n, state_room);
    take_out(store, at, 4 + 4 * n);
    Ok(Taken {
        table: long,
        state: 4 * n,
    })
}
