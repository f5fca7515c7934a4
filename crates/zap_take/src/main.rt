// zap-take: takes the newest piece of an event out of `store.bin`, a store of pieces parked by the program of `table.bin` (02, L8). The event is
// the only line of standard input. The piece's table and state go to `piece-table.bin` and `piece-state.bin`, and `store.bin` goes on without it,
// as long as it was; nothing is printed then. A refusal prints as in the listing program, and no file is written. A file that can't be read counts as
// empty.
#![tactic(auto)]

use console::{TABLE, print_decimal, read_all, read_file, read_table, write_out};
use listing::read_events;
use octets::split_once;
use std::fs::OpenOptions;
use std::io::Write;
use std::rt::Files;
use std::{fs, io};
use table::numbers::Numbered;
use taking::{TakeRefusal, take};

// An event has at most four digits; with its newline, and one byte more, so that a longer input is seen to be longer.
const LINE: usize = 6;

// As much of a store as two bytes can count, and these two. What a longer file has behind that stays as it is.
const STORE: usize = 65537;

// Enough for every piece: the longest table, and 4 bytes a node.
const PIECE_TABLE: usize = 32778;

const PIECE_STATE: usize = 16384;

fn main(rt: HostRuntime) -> io::Result<()> {
    let mut line = [0u8; LINE];
    let long = read_all(&mut rt.stdin(), &mut line)?;
    let mut out = rt.stdout();
    let Some(event) = event_of(&line[..long]) else {
        write_out(&mut out, b"bad-line\n");
        return Ok(());
    };
    take_piece(&rt, &mut out, event);
    Ok(())
}

// The event that is all of an input but for its newline, if it has one.
fn event_of(input: &[u8]) -> Option<usize> {
    let Some((line, behind)) = split_once(input, b'\n') else {
        return event_in(input);
    };
    if behind.len() != 0 {
        return None;
    }
    event_in(line)
}

// The event that is all of a line: numbers are told apart by spaces, so without one there is one number.
fn event_in(line: &[u8]) -> Option<usize> {
    if split_once(line, b' ').is_some() {
        return None;
    }
    let events = read_events(line, b' ')?;
    Some(events.lowest())
}

// Takes the newest piece of the event out of the files' table and store.
fn take_piece(files: &impl Files, out: &mut impl Write, event: usize) {
    let mut table = [0u8; TABLE];
    let mut store = [0u8; STORE];
    let table = read_table(files, &mut table);
    let long = read_file(files, b"store.bin", &mut store).len();
    take_from(files, out, table, &mut store[..long], event);
}

fn take_from(
    files: &impl Files,
    out: &mut impl Write,
    table: &[u8],
    store: &mut [u8],
    event: usize,
) {
    let mut piece_table = [0u8; PIECE_TABLE];
    let mut piece_state = [0u8; PIECE_STATE];
    let taken = take(table, store, event, &mut piece_table, &mut piece_state);
    match taken {
        Ok(lengths) => {
            let table_length = lengths.table;
            let state_length = lengths.state;
            write_piece(
                files,
                out,
                &piece_table[..table_length],
                &piece_state[..state_length],
                store,
            );
        }
        Err(why) => tell_refused(out, why),
    }
}

// Tells what was refused, and how.
fn tell_refused(out: &mut impl Write, why: TakeRefusal) {
    let what: &[u8] = match why {
        TakeRefusal::BadStore => b"store",
        TakeRefusal::NoPiece => b"event",
        _ => b"table",
    };
    let Numbered { number, index } = Numbered::from(why);
    // A number that can't be written is passed over, as a text is.
    write_out(out, what);
    write_out(out, b" refused ");
    let _ = print_decimal(out, number as u64);
    write_out(out, b" ");
    let _ = print_decimal(out, index as u64);
    write_out(out, b"\n");
}

// The store last: a piece that can't be written stays in it.
fn write_piece(files: &impl Files, out: &mut impl Write, table: &[u8], state: &[u8], store: &[u8]) {
    if write_files(files, table, state, store).is_err() {
        write_out(out, b"the piece or the store can't be written\n");
    }
}

fn write_files(files: &impl Files, table: &[u8], state: &[u8], store: &[u8]) -> io::Result<()> {
    fs::write(files, "piece-table.bin", table)?;
    fs::write(files, "piece-state.bin", state)?;
    update_file(files, "store.bin", store)
}

// Writes a text over the start of a file that is there.
fn update_file(files: &impl Files, name: &str, text: &[u8]) -> io::Result<()> {
    let mut file = OpenOptions::new().read(true).write(true).open(files, name)?;
    file.write_all(text)
}
