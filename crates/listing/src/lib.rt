// The listing program's lines: which events an input line hands in, and an answer's output line. Only reading and writing stay outside.
#![tactic(auto)]

ghost use Rattle.std.specs.Prelude.{length};
ghost use Rattle.events.specs.Members.{members};
ghost use Rattle.listing.specs.Inside.{ReadAs};
ghost use Rattle.listing.specs.Output.{ran_line, bad_line, refused_line, table_refused_line, enough, Written};

mod input;
mod output;

use events::EventSet;
pub use input::read_events;
use letters::Writer;
pub use output::put_events;
use output::{put_atoms, put_flag, put_refusal};

// The bytes of the longest input line that can be good.
pub const LONGEST: usize = 4096;

// A room has enough for a line if it has 6 bytes for each atom, and for so many numbers more: the events, and the line's other fields.
pub const MORE: usize = EventSet::PLACES + 10;

// Reads an input line, its newline left out: the events that it hands in if it is good.
pub fn read_line(line: &[u8]) -> Option<EventSet>
    ensures { ReadAs line.now result }
{
    if line.is_empty() {
        return Some(EventSet::empty());
    }
    if LONGEST < line.len() {
        return None;
    }
    read_events(line, b' ')
}

// Each of these writes an output line at the start of a lent room and answers its length; in a room that is not `enough`, nothing and so 0
// (an Option would be taken apart to the same length by each caller).
// The line of an instant that ran.
pub fn write_ran(
    room: &mut [u8],
    number: u64,
    passes: usize,
    finished: bool,
    events: EventSet,
    atoms: &[u16],
) -> usize
    ensures { Written
        (enough (length atoms.now))
        (ran_line number passes finished (members events) atoms.now)
        room.old
        room.new
        result }
{
    if room.len() / 6 < atoms.len() + MORE {
        return 0;
    }
    let mut out = Writer { room, at: 0 };
    out.number(number, b' ');
    out.number(passes as u64, b' ');
    put_flag(&mut out, finished);
    put_events(&mut out, events);
    put_atoms(&mut out, atoms);
    out.at
}

// The line of a bad line.
pub fn write_bad(room: &mut [u8], number: u64) -> usize
    ensures { Written (enough 0) (bad_line number) room.old room.new result }
{
    if room.len() / 6 < MORE {
        return 0;
    }
    let mut out = Writer { room, at: 0 };
    out.number(number, b' ');
    out.text(b"bad-line\n");
    out.at
}

// The line of a refused instant.
pub fn write_refused(room: &mut [u8], number: u64, refusal: usize, index: usize) -> usize
    ensures { Written (enough 0) (refused_line number refusal index) room.old room.new result }
{
    if room.len() / 6 < MORE {
        return 0;
    }
    let mut out = Writer { room, at: 0 };
    out.number(number, b' ');
    put_refusal(&mut out, refusal, index);
    out.at
}

// The line of a refused table. (Both refused lines share `put_refusal`; one function for both would take an Option of the number that each
// caller has or hasn't.)
pub fn write_table_refused(room: &mut [u8], refusal: usize, index: usize) -> usize
    ensures { Written (enough 0) (table_refused_line refusal index) room.old room.new result }
{
    if room.len() / 6 < MORE {
        return 0;
    }
    let mut out = Writer { room, at: 0 };
    out.text(b"table ");
    put_refusal(&mut out, refusal, index);
    out.at
}
