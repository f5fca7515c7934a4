// zap_calls: makes one public call for each line of standard input and lists what it answered and what the lent rooms then hold (README.md).
// Here are input and output; call.rt makes a line's call.
#![tactic(auto)]

ghost use Rattle.std.specs.Prelude.{◌+◌, ◌≤◌, length};

use call::{LONGEST, Rooms, answer_call};
use console::{TURNS, keep_rest, read_some, write_out};
use octets::split_once;
use std::io::{Read, Write};

mod call;

// The rooms' limits in a line: bytes of a table, bytes of a state, numbers of a row, bytes of a text, bytes of a store.
const TABLE: usize = 33000;

const STATE: usize = 17000;

const ROW: usize = 4200;

const TEXT: usize = 33000;

const STORE: usize = 66000;

const INPUT: usize = 401408;

const OUTPUT: usize = 262144;

// The room that an answer line can take at most.
const ANSWER: usize = 233000;

fn main(rt: HostRuntime) {
    let mut reader = rt.reader();
    let mut out = std::io::writer(&rt);
    let mut table = [0u8; TABLE];
    let mut state = [0u8; STATE];
    let mut row = [0u16; ROW];
    let mut text = [0u8; TEXT];
    let mut store = [0u8; STORE];
    let mut input = [0u8; INPUT];
    let mut output = [0u8; OUTPUT];
    let mut rooms = Rooms {
        table: &mut table,
        state: &mut state,
        row: &mut row,
        text: &mut text,
        store: &mut store,
    };
    answer_lines(&mut reader, &mut out, &mut rooms, &mut input, &mut output);
}

// Answers the lines of standard input. All of a block's whole lines are answered before the program waits for more.
fn answer_lines<R: Read, W: Write>(
    reader: &mut R,
    out: &mut W,
    rooms: &mut Rooms,
    input: &mut [u8; INPUT],
    output: &mut [u8; OUTPUT],
) {
    // So many bytes of an unfinished line stand at the start of the block.
    let mut held = 0;
    for _ in 0..TURNS {
        let got = read_some(reader, &mut input[held..]).unwrap_or(0);
        if got == 0 {
            answer_last(out, rooms, &input[..held], output);
            return;
        }
        let to = held + got;
        let left = answer_whole(out, rooms, &input[..to], output);
        held = keep_rest(input, to - left, to, LONGEST);
    }
}

// Answers a last line without a newline, if it has a byte.
fn answer_last<W: Write>(out: &mut W, rooms: &mut Rooms, line: &[u8], output: &mut [u8; OUTPUT]) {
    if line.len() == 0 {
        return;
    }
    let n = answer_call(line, rooms, output);
    write_out(out, &output[..n]);
}

// Answers the whole lines of a text, and answers how much is left behind the last of them.
fn answer_whole<W: Write>(
    out: &mut W,
    rooms: &mut Rooms,
    text: &[u8],
    output: &mut [u8; OUTPUT],
) -> usize
    ensures { result ≤ length text.now }
{
    let mut rest = text;
    let mut filled = 0;
    while let Some((line, behind)) = split_once(rest, b'\n') {
        filled = room_for_answer(out, output, filled);
        filled += answer_call(line, rooms, &mut output[filled..]);
        rest = behind;
    }
    write_out(out, &output[..filled]);
    rest.len()
}

// Where the next answer goes: where the block has no room for it behind the answers there, these are written out.
fn room_for_answer<W: Write>(out: &mut W, output: &[u8; OUTPUT], filled: usize) -> usize
    requires { filled ≤ 262144 }
    ensures { result + 233000 ≤ 262144 }
{
    if filled + ANSWER <= output.len() {
        return filled;
    }
    write_out(out, &output[..filled]);
    0
}
