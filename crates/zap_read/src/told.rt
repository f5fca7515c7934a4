// What is printed of a text that fails: where, and what could have stood there.
ghost use Rattle.std.specs.Prelude.{◌+◌, ◌<◌, ◌≤◌, length};
ghost use Rattle.zap_read.specs.Told.{OthersKept};

use crate::expected::{begins, is_whole};
use console::{print_decimal, write_out};
use std::io::Write;

// At most so many bytes of the line are shown, and so many of these before the byte that fails.
const WIDE: usize = 100;

const BEFORE: usize = 60;

// Tells that the text at the start of a longer room fails at byte k; that byte is lost.
pub fn tell_failure(out: &mut impl Write, text: &mut [u8], long: usize, k: usize)
    requires { (k ≤ long) × (long < length text.old) }
    ensures { OthersKept k text.old text.new }
{
    write_out(out, b"text refused 21 ");
    // A number that can't be written is passed over, as a text is.
    let _ = print_decimal(out, k as u64);
    write_out(out, b"\n");
    let from = line_from(text, k);
    tell_line(out, text, from, k, long);
    tell_expected(out, text, k);
}

// Where the shown part of the line begins that byte k stands in.
fn line_from(text: &[u8], k: usize) -> usize
    requires { k ≤ length text.now }
    ensures { (result ≤ k) × (k ≤ result + 60) }
{
    let from = k.saturating_sub(BEFORE);
    match text[from..k].iter().rposition(|b| *b == b'\n') {
        Some(i) => from + i + 1,
        None => from,
    }
}

// Shows the line from there on, and a caret under byte k.
fn tell_line(out: &mut impl Write, text: &[u8], from: usize, k: usize, long: usize)
    requires { (from ≤ k) × (k ≤ from + 60) × (k ≤ long) × (long ≤ length text.now) }
{
    let part = line_of(&text[from..long]);
    let mut line = [b' '; WIDE];
    for (room, b) in line.iter_mut().zip(part) {
        *room = shown(*b);
    }
    write_out(out, &line[..part.len()]);
    let blanks = [b' '; WIDE];
    write_out(out, b"\n");
    write_out(out, &blanks[..k - from]);
    write_out(out, b"^\n");
}

// As much of a text's first line as is shown.
fn line_of(text: &[u8]) -> &[u8]
    ensures { length result.now ≤ 100 }
{
    let wide = &text[..text.len().min(WIDE)];
    match wide.iter().position(|b| *b == b'\n') {
        Some(end) => &wide[..end],
        None => wide,
    }
}

// A byte that has no sign of its own shows as a question mark.
fn shown(b: u8) -> u8 {
    match b {
        b' '..=b'~' => b,
        _ => b'?',
    }
}

// Names the bytes that a text of the form can have behind the first k of this one; byte k is lost.
fn tell_expected(out: &mut impl Write, text: &mut [u8], k: usize)
    requires { k < length text.old }
    ensures { OthersKept k text.old text.new }
{
    write_out(out, b"expected:");
    if is_whole(&text[..k]) {
        tell_end(out, text[k]);
        return;
    }
    for b in 32..127 {
        text[k] = b;
        if begins(&text[..k + 1]) {
            tell_byte(out, b);
        }
    }
    write_out(out, b"\n");
}

// Tells that a text ends here, where byte b stands.
fn tell_end(out: &mut impl Write, b: u8) {
    write_out(out, b" the end of the text");
    if b == b'\n' {
        write_out(out, b" (a text has no newline)");
    }
    write_out(out, b"\n");
}

fn tell_byte(out: &mut impl Write, b: u8) {
    if b == b' ' {
        write_out(out, b" space");
        return;
    }
    write_out(out, &[b' ', b]);
}
