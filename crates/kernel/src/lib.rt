// The kernel: check, start and run one instant. Each call takes its table, state, events, values and rooms as they come.

#![tactic(auto)]

ghost use Rattle.std.specs.Prelude.{◌≡◌, ◌*◌, length};
ghost use Rattle.events.specs.Members.{places, members};
ghost use Rattle.table.specs.Inside.{Loaded};
ghost use Rattle.kernel.specs.Lowest.{Found, joined};
ghost use Rattle.kernel.specs.Answer.{Started, rooms, store_outcome, instant_outcome, values_of, Answered, no_answer};
ghost use Rattle.kernel.specs.declared.Refusal.TheVariants.{Table};

use crate::passes::{HandedIn, run_passes};
use crate::values::eight_from;
use events::{EventSet, WORDS};
use state::clear;
use state::resting::first_blamed;
use store::good::store_good;
use store::{put_in_use, room_of};
use table::records::word_at;
use table::{TableRefusal, check};
use waiting::{Wait, no_wait};

pub mod numbers;
mod passes;
mod values;

// Why a call was refused; specs/Answer.antt has each one's number and index (01, "Refusal numbers").
#[derive(Clone, Copy, PartialEq, Eq, Debug)]
pub enum Refusal {
    // The table was, and so.
    Table(TableRefusal),
    StateRoom,
    NotAtRest(usize),
    UnlistedEvent(usize),
    AtomRoom,
    // The store of parked pieces isn't good, or has too little room (L8).
    BadStore,
    StoreRoom,
}

impl From<TableRefusal> for Refusal {
    ghost from_gives = { λ why r. r ≡ Table why };

    fn from(why: TableRefusal) -> Refusal {
        Refusal::Table(why)
    }
}

// What an instant answers (01, "Rules of a pass").
#[derive(Clone, Copy)]
pub struct Answer {
    // The events present at its end, those handed in included; how many; the lowest, `PLACES` if none.
    pub events: EventSet,
    pub count: usize,
    pub lowest: usize,
    // How many atoms were written, whether the program has finished, how many passes there were.
    pub atoms: usize,
    pub finished: bool,
    pub passes: usize,
    // The first test in node order that was suspended in the last pass before the end was declared, and the event that it waits for; node
    // 4,096 and event 1,024 if the end never was.
    pub waits: Wait,
}

// What stands for an answer where an instant was refused, with whoever has places for one.
pub fn no_answer() -> Answer
    ensures { result ≡ no_answer }
{
    Answer {
        events: EventSet { words: [0; WORDS] },
        count: 0,
        lowest: EventSet::PLACES,
        atoms: 0,
        finished: false,
        passes: 0,
        waits: no_wait(),
    }
}

// Makes the state fresh: refusals 1 to 9.
pub fn start(table: &[u8], state: &mut [u8]) -> Result<(), Refusal>
    ensures { Started table.now state.old state.new result }
{
    check(table)?;
    let n = word_at(table, table.len() - 10);
    if state.len() < 4 * n {
        return Err(Refusal::StateRoom);
    }
    clear(&mut state[..4 * n]);
    Ok(())
}

// Runs one instant with these events and values handed in: refusals 1 to 13, and 25. The numbers of the atoms done go into the row `atoms`, in order,
// the pieces parked into the store, behind those that are there.
pub fn instant(
    table: &[u8],
    state: &mut [u8],
    events: EventSet,
    values: &[u8; 16],
    atoms: &mut [u16],
    store: &mut [u8],
) -> Result<Answer, Refusal>
    ensures { Answered table.now state.old (members events) (values_of values.now)
        (rooms atoms.old store.old) state.new (rooms atoms.new store.new) result }
{
    outcome_of(table, state, events, atoms, store)?;
    let n = word_at(table, table.len() - 10);
    let used = word_at(store, 0);
    let handed = HandedIn {
        events,
        low: eight_from(values, 0),
        high: eight_from(values, 8),
    };
    let ending = run_passes(
        table,
        &mut state[..4 * n],
        handed,
        atoms,
        &mut store[2 + used..],
    );
    put_in_use(store, used + ending.parked);
    Ok(ending.answer)
}

// The first check that an instant's table, state, events, room for atoms or store fails.
fn outcome_of(
    table: &[u8],
    state: &[u8],
    events: EventSet,
    atoms: &[u16],
    store: &[u8],
) -> Result<(), Refusal>
    ensures { result ≡ instant_outcome table.now state.now (members events) (rooms atoms.now store.now) }
{
    let most = check(table)?;
    let n = word_at(table, table.len() - 10);
    if state.len() < 4 * n {
        return Err(Refusal::StateRoom);
    }
    if let Some(i) = first_blamed(table, n, state) {
        return Err(Refusal::NotAtRest(i));
    }
    let v = word_at(table, table.len() - 6);
    if let Some(e) = lowest_from(events, v) {
        return Err(Refusal::UnlistedEvent(e));
    }
    if most.atoms <= atoms.len() {
        return store_outcome(table, store, most.parked);
    }
    Err(Refusal::AtomRoom)
}

// The first check that a store fails, of an accepted table that parks so many bytes at most.
fn store_outcome(table: &[u8], store: &[u8], parked: usize) -> Result<(), Refusal>
    requires { Loaded table.now }
    ensures { result ≡ store_outcome table.now store.now parked }
{
    if store_good(table, store) {
        if parked <= room_of(store) {
            return Ok(());
        }
        return Err(Refusal::StoreRoom);
    }
    Err(Refusal::BadStore)
}

// The lowest event of the set that is not below v, if there is one, which is seldom: so the words behind v's are first looked at together.
fn lowest_from(events: EventSet, v: usize) -> Option<usize>
    ensures { Found events.words v result }
{
    if v < EventSet::PLACES {
        let low = (events.words[v / 64] >> (v % 64)).trailing_zeros() as usize;
        if low < 64 {
            return Some(v + low);
        }
        let behind = v / 64 + 1;
        if joined_words(&events.words[behind..]) != 0 {
            return lowest_in(&events.words, behind);
        }
    }
    None
}

// The words joined by `|`.
fn joined_words(words: &[u64]) -> u64
    ensures { result ≡ joined 0 words.now }
{
    let mut all = 0;
    for word in words {
        all |= *word;
    }
    all
}

// The lowest event that the words from the one at `from` on mark, if there is one. An event's number goes by the place of its word.
fn lowest_in(words: &[u64], from: usize) -> Option<usize>
    requires { 64 * length words.now ≡ places }
    ensures { Found words.now (64 * from) result }
{
    for at in from..words.len() {
        let low = words[at].trailing_zeros() as usize;
        if low < 64 {
            return Some(64 * at + low);
        }
    }
    None
}
