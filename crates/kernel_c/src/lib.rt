// The four calls for C: plain numbers and lent places. include/zapper.h says what stands in each place of an answer.
#![tactic(auto)]

ghost use Rattle.std.specs.Prelude.{◌≡◌, ◌++◌};
ghost use Rattle.table.specs.Verdict.{verdict_of};
ghost use Rattle.kernel.specs.Answer.{rooms};
ghost use Rattle.kernel.specs.Exports.{check_places, StartedInPlaces, AnsweredInPlaces, TookInPlaces};

use events::{EventSet, WORDS};
use kernel::{instant, no_answer, start};
use table::check;
use table::numbers::Numbered;
use taking::take;

// An instant's answer has so many places in front of the words of its events, and so many in all.
const LEADING: usize = 9;

const INSTANT_PLACES: usize = LEADING + WORDS;

#[unsafe(no_mangle)]
pub extern "C" fn zapper_check(table: &[u8], answer: &mut [u64; 6])
    ensures { answer.new ≡ check_places (verdict_of table.now) }
{
    let verdict = check(table);
    let refusal = Numbered::of(verdict);
    let figures = verdict.unwrap_or_default();
    *answer = [
        refusal.number as u64,
        refusal.index as u64,
        figures.generations as u64,
        figures.atoms as u64,
        figures.nodes as u64,
        figures.parked as u64,
    ];
}

#[unsafe(no_mangle)]
pub extern "C" fn zapper_start(table: &[u8], state: &mut [u8], answer: &mut [u64; 2])
    ensures { StartedInPlaces table.now state.old state.new answer.new }
{
    let refusal = Numbered::of(start(table, state));
    *answer = [refusal.number as u64, refusal.index as u64];
}

#[unsafe(no_mangle)]
pub extern "C" fn zapper_instant(
    table: &[u8],
    state: &mut [u8],
    handed_in: &[u64; WORDS],
    values: &[u8; 16],
    atoms: &mut [u16],
    store: &mut [u8],
    answer: &mut [u64; INSTANT_PLACES],
)
    ensures { AnsweredInPlaces table.now state.old handed_in.now values.now
        (rooms atoms.old store.old) state.new (rooms atoms.new store.new)
        answer.new }
{
    let words = *handed_in;
    let reply = instant(table, state, EventSet { words }, values, atoms, store);
    let refusal = Numbered::of(reply);
    let a = reply.unwrap_or(no_answer());
    let leading = [
        refusal.number as u64,
        refusal.index as u64,
        a.count as u64,
        a.lowest as u64,
        a.atoms as u64,
        a.finished as u64,
        a.passes as u64,
        a.waits.node as u64,
        a.waits.event as u64,
    ];
    let present = a.events.words;
    *answer = places_of(leading, present);
}

// The newest piece of an event leaves the store as a table and a state; their lengths follow number and index.
#[unsafe(no_mangle)]
pub extern "C" fn zapper_take(
    table: &[u8],
    store: &mut [u8],
    event: usize,
    table_room: &mut [u8],
    state_room: &mut [u8],
    answer: &mut [u64; 4],
)
    ensures { TookInPlaces table.now store.old event table_room.old state_room.old
        store.new table_room.new state_room.new answer.new }
{
    let taken = take(table, store, event, table_room, state_room);
    let refusal = Numbered::of(taken);
    let lengths = taken.unwrap_or_default();
    *answer = [
        refusal.number as u64,
        refusal.index as u64,
        lengths.table as u64,
        lengths.state as u64,
    ];
}

// What stands in front of the words of the events, and these words.
fn places_of(leading: [u64; LEADING], words: [u64; WORDS]) -> [u64; INSTANT_PLACES]
    ensures { result ≡ leading ++ words }
{
    let mut row = [0; INSTANT_PLACES];
    row[..LEADING].copy_from_slice(&leading);
    row[LEADING..].copy_from_slice(&words);
    row
}
