// Reading a text: 21 where it fails, 22 where its table has no room, then refusals 1 to 8 of that table, else the table (02, L3).
ghost use Rattle.std.specs.Prelude.{◌≡◌, ◌+◌, ◌*◌, ◌≤◌, min, length};
ghost use Rattle.text.specs.Answers.{Reads};
ghost use Rattle.builder.specs.Building.{Buildable};

use crate::ReadRefusal;
use builder::build::build;
use form::Sizes;
use letters::zeros;
use scanner::scan::scan;
use table::check;

// The longest table that the requirements know.
const LONGEST: usize = 32778;

// Reads a text into a table at the start of the room. A refusal writes nothing.
pub fn read(text: &[u8], table: &mut [u8]) -> Result<usize, ReadRefusal>
    ensures { Reads text.now table.old table.new result }
{
    let sizes = match scan(text) {
        Ok(sizes) => sizes,
        Err(k) => return Err(ReadRefusal::Fails(k)),
    };
    let long = table_length(sizes);
    if LONGEST < long || table.len() < long {
        return Err(ReadRefusal::NoRoom);
    }
    read_counted(text, sizes, long, table)
}

// The bytes of a table of these sizes, or 32,779 if it has more.
fn table_length(sizes: Sizes) -> usize
    ensures { result ≡ min (6 * sizes.nodes + 4 * sizes.tests + 10) 32779 }
{
    let nodes = sizes.nodes.saturating_mul(6);
    let tests = sizes.tests.saturating_mul(4);
    nodes
        .saturating_add(tests)
        .saturating_add(10)
        .min(LONGEST + 1)
}

// Reads a text whose table is so long and fits the room. Never in line, as `scan`: so the two have their rooms on the stack one after the other.
#[inline(never)]
fn read_counted(
    text: &[u8],
    sizes: Sizes,
    long: usize,
    table: &mut [u8],
) -> Result<usize, ReadRefusal>
    requires buildable { Buildable text.now sizes long }
    requires room_enough { long ≤ length table.old }
    ensures { Reads text.now table.old table.new result }
{
    let mut made = zeros::<LONGEST>();
    read_through(text, sizes, &mut made[..long], table)
}

// The same with a room of that length, in which the table is made and checked first.
fn read_through(
    text: &[u8],
    sizes: Sizes,
    made: &mut [u8],
    table: &mut [u8],
) -> Result<usize, ReadRefusal>
    requires buildable { Buildable text.now sizes (length made.old) }
    requires room_enough { length made.old ≤ length table.old }
    ensures { Reads text.now table.old table.new result }
{
    build(text, sizes, made);
    check(made)?;
    let long = made.len();
    table[..long].copy_from_slice(made);
    Ok(long)
}
