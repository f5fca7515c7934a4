// Writing texts and lists of numbers into a lent room.
ghost use Rattle.std.specs.Prelude.{cond, [], ◌∷◌, ◌++◌, ◌+◌, ◌*◌, ◌≤◌, ◌<◌, length};
ghost use Rattle.events.specs.Members.{places, members};
ghost use Rattle.listing.specs.Output.{rising, listed};
ghost use Rattle.listing.specs.Inside.{items, events_of, Ended, refusal_end};
ghost use Rattle.letters.specs.Text.{bytes, newline, space};
ghost use Rattle.letters.specs.Writing.{HasRoom, Writes};

use events::EventSet;
use letters::Writer;

// Writes STOP or TERM and a space.
pub fn put_flag(out: &mut Writer, finished: bool)
    requires { HasRoom out.old 5 }
    ensures { Writes out.old out.new (cond finished (bytes "TERM") (bytes "STOP") ++ (space ∷ [])) }
{
    if finished {
        out.text(b"TERM ");
        return;
    }
    out.text(b"STOP ");
}

// Writes the end of a line that tells a refusal.
pub fn put_refusal(out: &mut Writer, refusal: usize, index: usize)
    requires { HasRoom out.old 50 }
    ensures { Writes out.old out.new (refusal_end refusal index) }
{
    out.text(b"refused ");
    out.number(refusal as u64, b' ');
    out.number(index as u64, b'\n');
}

// Writes the list of a set's events and a space.
pub fn put_events(out: &mut Writer, events: EventSet)
    requires { HasRoom out.old (6 * places + 2) }
    ensures written { Writes out.old out.new (listed (rising places (members events)) ++ (space ∷ [])) }
    ensures short { out.new.at ≤ out.old.at + 6 * places + 2 }
{
    let from = out.at;
    for (i, word) in events.words.iter().enumerate() {
        put_word(out, 64 * i, *word);
    }
    end_list(out, from, b' ');
}

// Writes the events of one word, a comma behind each.
fn put_word(out: &mut Writer, base: usize, word: u64)
    requires { (base + 64 ≤ places) × HasRoom out.old (6 * 64) }
    ensures written { Writes out.old out.new (items (events_of base word)) }
    ensures short { out.new.at ≤ out.old.at + 6 * 64 }
{
    // Bits are taken off until none is left: std has no iterator over a word's bits.
    let mut left = word;
    while left != 0 {
        let low = left.trailing_zeros() as usize;
        out.number((base + low) as u64, b',');
        left &= !(1 << low);
    }
}

// Writes the list of atoms and a newline.
pub fn put_atoms(out: &mut Writer, atoms: &[u16])
    requires { HasRoom out.old (6 * length atoms.now + 2) }
    ensures { Writes out.old out.new (listed atoms.now ++ (newline ∷ [])) }
{
    let from = out.at;
    for atom in atoms {
        out.number(*atom as u64, b',');
    }
    end_list(out, from, b'\n');
}

// Ends a list of numbers that have a comma behind each: the last comma becomes the byte behind the list, and no number a dash.
fn end_list(out: &mut Writer, from: usize, last: u8)
    requires { (from ≤ out.old.at) × HasRoom out.old 2 }
    ensures ended { Ended out.old out.new from last }
    ensures short { out.new.at ≤ out.old.at + 2 }
{
    if from == out.at {
        out.byte(b'-');
        out.byte(last);
        return;
    }
    out.room[out.at - 1] = last;
}
