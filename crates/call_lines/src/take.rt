// A line that takes a piece out of a store: its words are read one after the other.
ghost use Rattle.std.specs.Prelude.{◌≤◌, length, IfSome};
ghost use Rattle.call_lines.specs.Rooms.{LongRoom, StateRoom, StoreRoom, AnswerRoom};

use crate::bad_line;
use calls::{put_numbers, put_word, read_bytes};
use letters::Writer;
use listing::read_events;
use octets::split_once;
use table::numbers::Numbered;

// What a line hands in: an event, and how much of each room its words fill.
#[derive(Clone, Copy)]
struct HandedIn {
    event: usize,
    table: usize,
    store: usize,
    piece_table: usize,
    piece_state: usize,
}

pub fn answer_take(
    words: &[u8],
    table: &mut [u8],
    store: &mut [u8],
    table_room: &mut [u8],
    state_room: &mut [u8],
    output: &mut [u8],
) -> usize
    requires { StoreRoom store.old × LongRoom table_room.old × StateRoom state_room.old × AnswerRoom output.old }
    ensures { result ≤ length output.old }
{
    match read_words(words, table, store, table_room, state_room) {
        Some(handed) => call_take(
            &table[..handed.table],
            &mut store[..handed.store],
            handed.event,
            &mut table_room[..handed.piece_table],
            &mut state_room[..handed.piece_state],
            output,
        ),
        None => bad_line(output),
    }
}

// Reads the words: a table, a store, an event and two rooms. The event is one number: there is no space in a word, which would stand between two.
fn read_words(
    words: &[u8],
    table: &mut [u8],
    store: &mut [u8],
    table_room: &mut [u8],
    state_room: &mut [u8],
) -> Option<HandedIn>
    ensures { IfSome result (λ h. (h.table ≤ length table.new)
        × (h.store ≤ length store.new)
        × (h.piece_table ≤ length table_room.new)
        × (h.piece_state ≤ length state_room.new)) }
{
    let (table_word, behind_table) = split_once(words, b' ')?;
    let (store_word, behind_store) = split_once(behind_table, b' ')?;
    let (event_word, behind_event) = split_once(behind_store, b' ')?;
    let (piece_table_word, piece_state_word) = split_once(behind_event, b' ')?;
    let table = read_bytes(table_word, table)?;
    let store = read_bytes(store_word, store)?;
    let events = read_events(event_word, b' ')?;
    let piece_table = read_bytes(piece_table_word, table_room)?;
    let piece_state = read_bytes(piece_state_word, state_room)?;
    Some(HandedIn {
        event: events.lowest(),
        table,
        store,
        piece_table,
        piece_state,
    })
}

fn call_take(
    table: &[u8],
    store: &mut [u8],
    event: usize,
    table_room: &mut [u8],
    state_room: &mut [u8],
    output: &mut [u8],
) -> usize
    requires { StoreRoom store.old × LongRoom table_room.old × StateRoom state_room.old × AnswerRoom output.old }
    ensures { result ≤ length output.old }
{
    let taken = taking::take(table, store, event, table_room, state_room);
    let refusal = Numbered::of(taken);
    let lengths = taken.unwrap_or_default();
    let mut out = Writer {
        room: output,
        at: 0,
    };
    put_numbers(
        &mut out,
        &[
            refusal.number as u64,
            refusal.index as u64,
            lengths.table as u64,
            lengths.state as u64,
        ],
    );
    put_word(&mut out, store, b' ');
    put_word(&mut out, table_room, b' ');
    put_word(&mut out, state_room, b'\n');
    out.at
}
