// zap-read: reads a program in written form from standard input and writes its table to `table.bin` (02, L3). A refused table prints as in
// the listing program; a text that fails prints the line where it does, a caret, and the bytes that could have stood there.
#![tactic(auto)]

ghost use Rattle.std.specs.Prelude.{◌<◌, ◌≡◌, length};

use console::{read_all, write_out};
use letters::zeros;
use listing::write_table_refused;
use std::io::Write;
use std::rt::Files;
use std::{fs, io};
use table::numbers::Numbered;
use text::ReadRefusal;
use text::read::read;
use told::tell_failure;

mod expected;
mod told;

// One byte more than the longest text, so that a longer one is seen to be longer.
const TEXT: usize = 1048577;

// The longest table.
const TABLE: usize = 32778;

fn main(rt: HostRuntime) -> io::Result<()> {
    let mut text = zeros::<TEXT>();
    let long = read_all(&mut rt.stdin(), &mut text)?;
    let mut out = rt.stdout();
    if TEXT <= long {
        write_out(&mut out, b"text longer than 1048576 bytes\n");
        return Ok(());
    }
    read_text(&rt, &mut out, &mut text, long);
    Ok(())
}

// Reads the text at the start of a longer room.
fn read_text(files: &impl Files, out: &mut impl Write, text: &mut [u8], long: usize)
    requires { long < length text.old }
{
    let mut table = zeros::<TABLE>();
    let answer = read(&text[..long], &mut table);
    match answer {
        Ok(n) => write_table(files, out, &table[..n]),
        Err(ReadRefusal::Fails(k)) => tell_failure(out, text, long, k),
        Err(why) => {
            let refusal = Numbered::from(why);
            let n = write_table_refused(&mut table, refusal.number, refusal.index);
            write_out(out, &table[..n]);
        }
    }
}

fn write_table(files: &impl Files, out: &mut impl Write, table: &[u8]) {
    if fs::write(files, "table.bin", table).is_ok() {
        return;
    }
    write_out(out, b"table.bin can't be written\n");
}
