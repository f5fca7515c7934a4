// A pending Freezable, and how its body is parked (L8).
ghost use Rattle.std.specs.Prelude.{◌≡◌, ◌+◌, ◌*◌, ◌<◌, ◌≤◌, ◌/◌, ◌%◌, [], ◌∷◌, length, get_or};
ghost use borrow.Rule.Slice.PartMut.{put_mid};
ghost use Rattle.events.specs.Members.{places};
ghost use Rattle.table.specs.Records.{argument_at, size_at};
ghost use Rattle.steps.specs.Kinds.{phase_unseen, Pending};
ghost use Rattle.steps.specs.Lent.{CanPassBeside, HasPassedBeside, Named};
ghost use Rattle.steps.specs.Parking.{stays_pending, Parked, Copied};

use crate::Pass;
use crate::phases::{GONE, STARRED, clear_part};
use crate::progress::Progress;
use junior::Flag;
use table::records::{argument_at, size_at};

// Whether node i, in this phase, is a pending Freezable that stays so: rule 45.
pub fn stays_pending(table: &[u8], i: usize, phase: u8, progress: &Progress) -> bool
    requires { (6 * i + 3 < length table.now) × (argument_at table.now i < places) }
    ensures { result ≡ stays_pending table.now i phase progress.now }
{
    phase == STARRED && !progress.ended && !progress.has_event(argument_at(table, i))
}

// Rules 42 to 45.
pub fn run_pending(pass: &mut Pass, i: usize) -> Flag
    requires { CanPassBeside phase_unseen Pending pass.old i }
    ensures { HasPassedBeside phase_unseen Pending pass.old i pass.new result }
{
    let event = argument_at(pass.table, i);
    if pass.progress.has_event(event) {
        park(pass, i, event);
        if pass.progress.ended {
            pass.state[4 * i] = GONE;
            return Flag::STOP;
        }
        return Flag::TERM;
    }
    if pass.progress.ended {
        pass.state[4 * i] = 0;
        return Flag::STOP;
    }
    pass.state[4 * i] = STARRED;
    Flag::SUSP
}

// A piece is as long as the Freezable's own state: all of that goes into the store, and is zero afterwards.
fn park(pass: &mut Pass, i: usize, event: usize)
    requires node_there { (6 * i + 5 < length pass.old.table.now) × (i < 4096) × (event < 65536) }
    requires some_node { 1 ≤ size_at pass.old.table.now i }
    requires state_long { 4 * i + 4 * size_at pass.old.table.now i ≤ length pass.old.state.now }
    requires store_long { pass.old.progress.parked + 4 * size_at pass.old.table.now i ≤ length pass.old.store.now }
    ensures parked { Parked pass.old.table.now i event pass.old.state.now pass.old.progress pass.old.store.now
        pass.new.state.now pass.new.progress pass.new.store.now }
    ensures atoms { pass.new.atoms.now ≡ pass.old.atoms.now }
    ensures named { Named pass.old pass.new }
{
    let at = pass.progress.parked;
    let size = size_at(pass.table, i);
    let end = copy_nodes(pass, 4 * i, at, size);
    label(pass.store, at, event, i + 1);
    clear_part(pass.state, 4 * i, 4 * i + 4 * size);
    pass.progress.parked = end;
}

// The bytes of so many nodes go from the state to the store. The answer is the place behind them. A node's four at a time, read one by one: the borrow
// checker does not cover a slice of a pass that is lent while another is, and after a loan of the state alone the proof doesn't know that it stayed.
fn copy_nodes(pass: &mut Pass, from: usize, to: usize, nodes: usize) -> usize
    requires from_bound { (from < 16384) × (nodes < 65536) }
    requires slices_long { (from + 4 * nodes ≤ length pass.old.state.now) × (to + 4 * nodes ≤ length pass.old.store.now) }
    ensures { (result ≡ to + 4 * nodes) × Copied from to nodes pass.old pass.new }
{
    let mut at = to;
    for node in 0..nodes {
        let k = from + 4 * node;
        let own = [
            pass.state[k],
            pass.state[k + 1],
            pass.state[k + 2],
            pass.state[k + 3],
        ];
        at = put_own(pass.store, at, own);
    }
    at
}

// Four bytes are written. The answer is the place behind them.
fn put_own(store: &mut [u8], at: usize, own: [u8; 4]) -> usize
    requires { at + 4 ≤ length store.old }
    ensures behind { result ≡ at + 4 }
    ensures written { store.new ≡ put_mid at 4 store.old own }
{
    store[at..at + 4].copy_from_slice(&own);
    at + 4
}

// Event and node stand where the Freezable's own four bytes do.
fn label(store: &mut [u8], at: usize, event: usize, node: usize)
    requires { (at + 4 ≤ length store.old) × (event < 65536) × (node < 65536) }
    ensures { store.new ≡ put_mid at 4 store.old (event / 256 ∷ event % 256 ∷ node / 256 ∷ node % 256 ∷ []) }
{
    let [event_high, event_low] = (event as u16).to_be_bytes();
    let [node_high, node_low] = (node as u16).to_be_bytes();
    put_own(store, at, [event_high, event_low, node_high, node_low]);
}
