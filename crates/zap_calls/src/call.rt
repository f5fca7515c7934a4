// The call that a line makes, and its answer line. Each function puts an answer line at the start of the output and answers its length.
ghost use Rattle.std.specs.Prelude.{◌≤◌, length};
ghost use Rattle.call_lines.specs.Rooms.{LongRoom, StateRoom, Lengths, AnswerRoom};

use call_lines::bad_line;
use call_lines::instant::answer_instant;
use call_lines::take::answer_take;
use calls::{put_numbers, put_word, read_bytes, read_pair};
use letters::Writer;
use octets::split_once;
use table::Figures;
use table::numbers::Numbered;

// The bytes of the longest line that is a call.
pub const LONGEST: usize = 400000;

// The rooms that a line's words are read into, for a table, a state, a row, a text and a store. A longer word makes a bad line.
#[derive(Drop)]
pub struct Rooms<'a> {
    pub table: &'a mut [u8],
    pub state: &'a mut [u8],
    pub row: &'a mut [u16],
    pub text: &'a mut [u8],
    pub store: &'a mut [u8],
    ghost lengths: { Lengths table.now state.now row.now text.now store.now },
}

pub fn answer_call(line: &[u8], rooms: &mut Rooms, output: &mut [u8]) -> usize
    requires { AnswerRoom output.old }
    ensures { result ≤ length output.old }
{
    if LONGEST < line.len() {
        return bad_line(output);
    }
    let Some((name, words)) = split_once(line, b' ') else {
        return bad_line(output);
    };
    match name {
        b"check" => answer_check(words, rooms, output),
        b"start" => answer_start(words, rooms, output),
        b"instant" => answer_instant(
            words,
            rooms.table,
            rooms.state,
            rooms.row,
            rooms.store,
            output,
        ),
        b"read" => answer_read(words, rooms, output),
        b"print" => answer_print(words, rooms, output),
        // The piece's table goes into the room for a text.
        b"take" => answer_take(
            words,
            rooms.table,
            rooms.store,
            rooms.text,
            rooms.state,
            output,
        ),
        _ => bad_line(output),
    }
}

fn answer_check(words: &[u8], rooms: &mut Rooms, output: &mut [u8]) -> usize
    requires { AnswerRoom output.old }
    ensures { result ≤ length output.old }
{
    match read_bytes(words, rooms.table) {
        Some(n) => call_check(&rooms.table[..n], output),
        None => bad_line(output),
    }
}

fn call_check(table: &[u8], output: &mut [u8]) -> usize
    requires { AnswerRoom output.old }
    ensures { result ≤ length output.old }
{
    let verdict = table::check(table);
    put_check(output, Numbered::of(verdict), verdict.unwrap_or_default())
}

fn put_check(output: &mut [u8], refusal: Numbered, figures: Figures) -> usize
    requires { AnswerRoom output.old }
    ensures { result ≤ length output.old }
{
    let mut out = Writer {
        room: output,
        at: 0,
    };
    put_numbers(
        &mut out,
        &[
            refusal.number as u64,
            refusal.index as u64,
            figures.generations as u64,
            figures.atoms as u64,
            figures.nodes as u64,
        ],
    );
    out.number(figures.parked as u64, b'\n');
    out.at
}

fn answer_start(words: &[u8], rooms: &mut Rooms, output: &mut [u8]) -> usize
    requires { AnswerRoom output.old }
    ensures { result ≤ length output.old }
{
    match read_pair(words, rooms.table, rooms.state) {
        Some((n, m)) => call_start(&rooms.table[..n], &mut rooms.state[..m], output),
        None => bad_line(output),
    }
}

fn call_start(table: &[u8], state: &mut [u8], output: &mut [u8]) -> usize
    requires { StateRoom state.old × AnswerRoom output.old }
    ensures { result ≤ length output.old }
{
    let refusal = Numbered::of(kernel::start(table, state));
    let mut out = Writer {
        room: output,
        at: 0,
    };
    put_numbers(&mut out, &[refusal.number as u64, refusal.index as u64]);
    put_word(&mut out, state, b'\n');
    out.at
}

fn answer_read(words: &[u8], rooms: &mut Rooms, output: &mut [u8]) -> usize
    requires { AnswerRoom output.old }
    ensures { result ≤ length output.old }
{
    match read_pair(words, rooms.text, rooms.table) {
        Some((n, m)) => call_read(&rooms.text[..n], &mut rooms.table[..m], output),
        None => bad_line(output),
    }
}

fn call_read(text: &[u8], table: &mut [u8], output: &mut [u8]) -> usize
    requires { LongRoom table.old × AnswerRoom output.old }
    ensures { result ≤ length output.old }
{
    let answer = text::read::read(text, table);
    put_room(output, Numbered::of(answer), answer.unwrap_or(0), table)
}

fn answer_print(words: &[u8], rooms: &mut Rooms, output: &mut [u8]) -> usize
    requires { AnswerRoom output.old }
    ensures { result ≤ length output.old }
{
    match read_pair(words, rooms.table, rooms.text) {
        Some((n, m)) => call_print(&rooms.table[..n], &mut rooms.text[..m], output),
        None => bad_line(output),
    }
}

fn call_print(table: &[u8], text: &mut [u8], output: &mut [u8]) -> usize
    requires { LongRoom text.old × AnswerRoom output.old }
    ensures { result ≤ length output.old }
{
    let answer = text::print::print(table, text);
    put_room(output, Numbered::of(answer), answer.unwrap_or(0), text)
}

// The answer line of reading and of printing: the room is the lent one that the call writes.
fn put_room(output: &mut [u8], refusal: Numbered, long: usize, room: &[u8]) -> usize
    requires { LongRoom room.now × AnswerRoom output.old }
    ensures { result ≤ length output.old }
{
    let mut out = Writer {
        room: output,
        at: 0,
    };
    put_numbers(
        &mut out,
        &[refusal.number as u64, refusal.index as u64, long as u64],
    );
    put_word(&mut out, room, b'\n');
    out.at
}
