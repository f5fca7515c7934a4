// What stands under an instant's line: what the program waits for (02, L1).
ghost use Rattle.std.specs.Prelude.{◌+◌, ◌≤◌, length};
ghost use Rattle.player.specs.Waiting.{room_under};
ghost use Rattle.player.specs.Inside.{OneOfItsNodes, PutsUnder, Shown, ShowsWait};

use printer::room::{put, put_number};
use printer::spelled::put_outline;
use waiting::{NO_NODE, Wait};

// Enough for the line under an instant: the records of a configuration take at most 7 bytes each, all else takes at most 100.
pub const ROOM_UNDER: usize = 14436;

// Puts it behind the instant's line, which ends at `at`: nothing if the end was never declared, or if nobody asked why (a bool, as it is in
// the statement L1 about both programs; it goes with no other value).
pub fn put_under(table: &[u8], waits: Wait, room: &mut [u8], at: usize, why: bool) -> usize
    requires one_of_its_nodes { OneOfItsNodes table.now waits }
    requires room_enough { at + room_under ≤ length room.old }
    ensures { PutsUnder why table.now waits room.old room.new at result }
{
    if !why {
        return at;
    }
    if waits.node == NO_NODE {
        return at;
    }
    put_wait(table, waits, room, at)
}

// Puts the node, its test and the event.
fn put_wait(table: &[u8], waits: Wait, room: &mut [u8], at: usize) -> usize
    requires { Shown table.now waits at }
    ensures { ShowsWait table.now waits room.old room.new at result }
{
    let begun = put(room, at, b"waits at node ");
    let node = put_number(room, begun, waits.node);
    let inside = put(room, node, b" in ");
    let test = put_outline(table, waits.node, room, inside);
    let lacking = put(room, test, b" for event ");
    let event = put_number(room, lacking, waits.event);
    put(room, event, b"\n")
}
