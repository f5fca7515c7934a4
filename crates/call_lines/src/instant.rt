// A line that runs an instant: its words are read one after the other.
ghost use Rattle.std.specs.Prelude.{◌≤◌, length, IfSome};
ghost use Rattle.call_lines.specs.Rooms.{StateRoom, RowRoom, StoreRoom, AnswerRoom};

use crate::bad_line;
use calls::{put_numbers, put_word, read_bytes, read_list, read_row};
use events::EventSet;
use letters::Writer;
use octets::split_once;
use table::numbers::Numbered;

// The values handed in with an instant.
const VALUES: usize = 16;

// What a line hands in: its events, its values, and how much of each room its words fill.
#[derive(Clone, Copy)]
struct HandedIn {
    events: EventSet,
    values: [u8; VALUES],
    table: usize,
    state: usize,
    row: usize,
    store: usize,
}

pub fn answer_instant(
    words: &[u8],
    table: &mut [u8],
    state: &mut [u8],
    row: &mut [u16],
    store: &mut [u8],
    output: &mut [u8],
) -> usize
    requires { StateRoom state.old × RowRoom row.old × StoreRoom store.old × AnswerRoom output.old }
    ensures { result ≤ length output.old }
{
    match read_words(words, table, state, row, store) {
        Some(handed) => call_instant(
            &table[..handed.table],
            &mut state[..handed.state],
            handed.events,
            &handed.values,
            &mut row[..handed.row],
            &mut store[..handed.store],
            output,
        ),
        None => bad_line(output),
    }
}

// Reads the words: a table, a state, events, values, which are sixteen bytes exactly, a row and a store.
fn read_words(
    words: &[u8],
    table: &mut [u8],
    state: &mut [u8],
    row: &mut [u16],
    store: &mut [u8],
) -> Option<HandedIn>
    ensures { IfSome result (λ h. (h.table ≤ length table.new)
        × (h.state ≤ length state.new)
        × (h.row ≤ length row.new)
        × (h.store ≤ length store.new)) }
{
    let (table_word, behind_table) = split_once(words, b' ')?;
    let (state_word, behind_state) = split_once(behind_table, b' ')?;
    let (events_word, behind_events) = split_once(behind_state, b' ')?;
    let (values_word, behind_values) = split_once(behind_events, b' ')?;
    let (row_word, store_word) = split_once(behind_values, b' ')?;
    let table = read_bytes(table_word, table)?;
    let state = read_bytes(state_word, state)?;
    let events = read_list(events_word)?;
    let mut values = [0u8; VALUES];
    let count = read_bytes(values_word, &mut values)?;
    if count != VALUES {
        return None;
    }
    let row = read_row(row_word, row)?;
    let store = read_bytes(store_word, store)?;
    Some(HandedIn {
        events,
        values,
        table,
        state,
        row,
        store,
    })
}

fn call_instant(
    table: &[u8],
    state: &mut [u8],
    handed_in: EventSet,
    values: &[u8; VALUES],
    row: &mut [u16],
    store: &mut [u8],
    output: &mut [u8],
) -> usize
    requires { StateRoom state.old × RowRoom row.old × StoreRoom store.old × AnswerRoom output.old }
    ensures { result ≤ length output.old }
{
    let reply = kernel::instant(table, state, handed_in, values, row, store);
    let refusal = Numbered::of(reply);
    let answer = reply.unwrap_or(kernel::no_answer());
    let mut out = Writer {
        room: output,
        at: 0,
    };
    put_numbers(&mut out, &[refusal.number as u64, refusal.index as u64]);
    listing::put_events(&mut out, answer.events);
    put_numbers(
        &mut out,
        &[
            answer.count as u64,
            answer.lowest as u64,
            answer.atoms as u64,
            answer.finished as u64,
            answer.passes as u64,
            answer.waits.node as u64,
            answer.waits.event as u64,
        ],
    );
    put_word(&mut out, state, b' ');
    put_word(&mut out, row, b' ');
    put_word(&mut out, store, b'\n');
    out.at
}
