// The listing program (01, "The listing program") and the program for people (02, L1): both start the table of `table.bin` fresh and list one
// instant for each line of standard input; the second says under an instant what the program waits for.
// Here is the reading and writing; what a line does is answer.rt's, and is proved to be what 01 and L1 say.
#![tactic(auto)]

ghost use Rattle.std.specs.Prelude.{◌≡◌, ◌+◌, ◌<◌, ◌≤◌, ◌^◌, length, take, drop, IfSome, MatchOption};
ghost use Rattle.octets.specs.Octets.{index_of};
ghost use Rattle.letters.specs.Text.{newline};
ghost use Rattle.listing.specs.Output.{enough};
ghost use Rattle.player.specs.Waiting.{room_under};

use answer::{Player, ROW, STATE, STORE};
use console::{TABLE, TURNS, keep_rest, read_some, read_table, write_out};
use listing::{LONGEST, MORE, write_table_refused};
use octets::split_once;
use std::io::{Input, Print, Read, Write};
use std::rt::Files;
use table::numbers::Numbered;
use under::ROOM_UNDER;

mod answer;
mod under;

const BLOCK: usize = 65536;

// The room that an output line can take at most, with what stands under it.
const LINE: usize = 6 * (ROW + MORE) + ROOM_UNDER;

// Lists the lines of standard input; `why` is whether it says what the program waits for.
pub fn play(rt: &(impl Files + Input + Print), why: bool) {
    // The rooms are made before anything is called: one that is made behind a call is cleared twice, on entry and there.
    let mut room = [0u8; TABLE];
    let mut player = Player {
        table: &[],
        state: [0; STATE],
        row: [0; ROW],
        store: [0; STORE],
        number: 1,
        why,
    };
    let mut output = Output {
        out: std::io::writer(rt),
        block: [0; BLOCK],
        filled: 0,
    };
    let mut input = [0u8; BLOCK];
    player.table = read_table(rt, &mut room);
    let started = kernel::start(player.table, &mut player.state);
    if let Err(why) = started {
        let refusal = Numbered::from(why);
        output.filled = write_table_refused(&mut output.block, refusal.number, refusal.index);
        output.flush();
        return;
    }
    list_lines(&mut rt.reader(), &mut input, &mut player, &mut output);
}

// What is printed: lines stand at the start of the block until it may have no room for one more, or the program waits for input.
#[derive(Drop)]
struct Output<W> {
    out: W,
    block: [u8; BLOCK],
    filled: usize,
    ghost within: { filled ≤ 65536 },
}

impl<W: Write> Output<W> {
    // Lists a line behind those that stand there.
    fn list_line(&mut self, player: &mut Player<'_>, line: &[u8])
        requires { player.old.number + 1 < 2 ^ 64 }
        ensures { player.new.number ≡ player.old.number + 1 }
    {
        self.make_room();
        let n = player.answer_line(line, &mut self.block[self.filled..]);
        self.filled += n;
        player.number += 1;
    }

    // Makes room for an output line: where there may be none behind the lines that stand there, these are written out.
    fn make_room(&mut self)
        ensures { self.new.filled + enough 4096 + room_under ≤ 65536 }
    {
        if BLOCK < self.filled + LINE {
            self.flush();
        }
    }

    fn flush(&mut self)
        ensures { self.new.filled ≡ 0 }
    {
        write_out(&mut self.out, &self.block[..self.filled]);
        self.filled = 0;
    }
}

// Lists the lines of standard input. All of a block's whole lines are answered before the program waits for more.
fn list_lines<R: Read, W: Write>(
    reader: &mut R,
    input: &mut [u8; BLOCK],
    player: &mut Player<'_>,
    output: &mut Output<W>,
)
    requires { player.old.number ≡ 1 }
{
    // so many bytes of an unfinished line stand at the start of the block
    let mut held = 0;
    for _ in 0..TURNS {
        let got = read_some(reader, &mut input[held..]).unwrap_or(0);
        if got == 0 {
            break;
        }
        let to = held + got;
        let left = list_whole(player, output, &input[..to]);
        output.flush();
        held = keep_rest(input, to - left, to, LONGEST);
    }
    if 0 < held {
        output.list_line(player, &input[..held]);
        output.flush();
    }
}

// Lists the whole lines of a text, and answers how much is left behind the last of them.
fn list_whole<W: Write>(player: &mut Player<'_>, output: &mut Output<W>, text: &[u8]) -> usize
    requires { player.old.number + length text.now < 2 ^ 64 }
    ensures numbered { player.new.number + result ≤ player.old.number + length text.now }
    ensures within { result ≤ length text.now }
{
    let mut rest = text;
    while let Some((line, behind)) = next_line(rest) {
        output.list_line(player, line);
        rest = behind;
    }
    rest.len()
}

// The first line of a text, its newline left out, and what stands behind it, if there is a whole one: here alone a contract says which byte ends a line.
fn next_line(text: &[u8]) -> Option<(&[u8], &[u8])>
    ensures split { MatchOption
        result
        (length text.now ≡ index_of newline text.now)
        (λ parts. (index_of newline text.now < length text.now)
        × (parts.0.now ≡ take (index_of newline text.now) text.now)
        × (parts.1.now ≡ drop (index_of newline text.now + 1) text.now)) }
    ensures shorter { IfSome result (λ parts. length parts.1.now + 1 + length parts.0.now ≡ length text.now) }
{
    split_once(text, b'\n')
}
