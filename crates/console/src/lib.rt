// The console: standard input and output by blocks, the files of the current folder, and what stays of a block.
#![tactic(auto)]

ghost use Rattle.std.specs.Prelude.{ℕ, ◌<◌, ◌≤◌, IfOk, OnErr, length, take};
ghost use Rattle.std.specs.Fmt.{decimal};
ghost use Rattle.std.specs.Io.KnownBytes.{Appends, Consumes, IsAtEnd, ReadConsumes};

use std::fs::File;
use std::io;
use std::io::{ErrorKind, Read, Write};
use std::rt::Files;

mod rest;

pub use rest::keep_rest;

// The room for a table: one byte more than the longest has, so that a longer file is seen to be longer.
pub const TABLE: usize = 32779;

// A proved loop has to end, so it counts its turns, up to a number that no run reaches.
pub const TURNS: usize = 140737488355328;

// Reads once, and again where a signal came first.
pub fn read_some<R: Read>(reader: &mut R, room: &mut [u8]) -> io::Result<usize>
    ensures bound { IfOk result (λ n. n ≤ length room.new) }
    ensures bytes { ReadConsumes (R.remaining reader.old) (R.remaining reader.new) result room.new }
{
    for _ in 0..TURNS {
        match reader.read(room) {
            Err(e) if e.kind() == ErrorKind::Interrupted => {}
            got => return got,
        }
    }
    Err(io::Error::from(ErrorKind::Interrupted))
}

// Reads until the room is full or the input ends. The bytes that came before an error stand in the room, but how many isn't told
// (std's `read_exact` takes an end before the room is full for an error).
pub fn read_all<R: Read>(reader: &mut R, room: &mut [u8]) -> io::Result<usize>
    ensures bound { IfOk result (λ n. n ≤ length room.new) }
    ensures bytes { IfOk result (λ n. Consumes (R.remaining reader.old) (R.remaining reader.new) (take n room.new)) }
    ensures end { IfOk result (λ n. n < length room.new → IsAtEnd (R.remaining reader.new)) }
    ensures error { OnErr result ((n : ℕ) × (n ≤ length room.new) × Consumes (R.remaining reader.old) (R.remaining reader.new) (take n room.new)) }
{
    let mut done = 0;
    while done < room.len() {
        let got = read_some(reader, &mut room[done..])?;
        if got == 0 {
            break;
        }
        done += got;
    }
    Ok(done)
}

// The bytes of `table.bin`, read to the start of the room; none if it can't be read.
pub fn read_table<'a>(files: &impl Files, room: &'a mut [u8]) -> &'a [u8]
    ensures { length result.now ≤ length room.old }
{
    read_named(files, "table.bin", room)
}

// The same of any file of the current folder. Files are named in UTF-8: any other name is of no file that can be read.
pub fn read_file<'a>(files: &impl Files, name: &[u8], room: &'a mut [u8]) -> &'a [u8]
    ensures { length result.now ≤ length room.old }
{
    match str::from_utf8(name) {
        Ok(name) => read_named(files, name, room),
        Err(_) => &room[..0],
    }
}

fn read_named<'a>(files: &impl Files, name: &str, room: &'a mut [u8]) -> &'a [u8]
    ensures { length result.now ≤ length room.old }
{
    let length = match File::open(files, name) {
        Ok(mut file) => read_all(&mut file, room).unwrap_or(0),
        Err(_) => 0,
    };
    &room[..length]
}

// Writes a text and answers how much of it could be written. (std's `write_all` doesn't tell after an error how much that was.)
pub fn write_out<W: Write>(out: &mut W, text: &[u8]) -> usize
    ensures bound { result ≤ length text.now }
    ensures bytes { Appends (W.contents out.old) (W.contents out.new) (take result text.now) }
{
    let mut done = 0;
    while done < text.len() {
        let put = write_some(out, &text[done..]);
        if put == 0 {
            break;
        }
        done += put;
    }
    done
}

// Writes once, and again where a signal came first; 0 if nothing can be written: so much was, which is what `write_out` adds up.
fn write_some<W: Write>(out: &mut W, text: &[u8]) -> usize
    ensures bound { result ≤ length text.now }
    ensures bytes { Appends (W.contents out.old) (W.contents out.new) (take result text.now) }
{
    for _ in 0..TURNS {
        match out.write(text) {
            Ok(n) => return n,
            Err(e) if e.kind() == ErrorKind::Interrupted => {}
            Err(_) => return 0,
        }
    }
    0
}

// Writes a number in decimal.
pub fn print_decimal<W: Write>(out: &mut W, n: u64) -> io::Result<()>
    ensures { IfOk result (λ _. Appends (W.contents out.old) (W.contents out.new) (decimal n)) }
{
    write!(out, "{n}")
}
