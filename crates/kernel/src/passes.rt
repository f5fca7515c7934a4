// An instant's passes, over the state's own bytes.
ghost use Rattle.std.specs.Prelude.{◌≡◌, ◌<◌, length};
ghost use Rattle.events.specs.Members.{marks, members};
ghost use Rattle.steps.specs.Running.{ended, values_in};
ghost use Rattle.steps.specs.Lent.{Named};
ghost use Rattle.steps.specs.Progress.{words_of, tally_of};
ghost use Rattle.kernel.specs.Passes.{word_values, Startable, RanFree, NotBegun, Reported, LeadsIfStill, WaitsAfter};

use crate::Answer;
use events::EventSet;
use junior::Flag;
use runner::run_child;
use steps::Pass;
use steps::phases::GONE;
use steps::progress::Progress;
use table::records::word_at;
use waiting::{Wait, no_wait, waiting};

// What the box hands in with an instant: the events, and the sixteen values in two words, the first in the lowest byte of `low`.
#[derive(Clone, Copy)]
pub struct HandedIn {
    pub events: EventSet,
    pub low: u64,
    pub high: u64,
}

// What an instant ends with: its answer, and how many bytes were parked.
#[derive(Clone, Copy)]
pub struct Ending {
    pub answer: Answer,
    pub parked: usize,
}

// Passes from node 0 until one answers STOP or TERM (01, "Instant"); `free` is the free part of the store.
pub fn run_passes(
    table: &[u8],
    state: &mut [u8],
    handed: HandedIn,
    atoms: &mut [u16],
    free: &mut [u8],
) -> Ending
    requires { Startable table.now state.old atoms.old free.old }
    ensures { RanFree table.now state.old (members handed.events) (word_values handed.low handed.high)
        atoms.old free.old state.new atoms.new free.new result }
{
    let nodes = word_at(table, table.len() - 10);
    let progress = Progress {
        events: handed.events,
        done: 0,
        moved: false,
        ended: false,
        base: 6 * nodes,
        values: [handed.low, handed.high],
        parked: 0,
    };
    let mut pass = Pass {
        table,
        state,
        progress,
        atoms,
        store: free,
    };
    run_from(&mut pass)
}

// The passes themselves.
fn run_from(pass: &mut Pass) -> Ending
    requires startable { Startable pass.old.table.now pass.old.state.now pass.old.atoms.now pass.old.store.now }
    requires not_begun { NotBegun pass.old.table.now pass.old.progress }
    ensures ran { RanFree pass.old.table.now pass.old.state.now (marks (words_of pass.old.progress)) (values_in (tally_of pass.old.progress))
        pass.old.atoms.now pass.old.store.now pass.new.state.now pass.new.atoms.now pass.new.store.now result }
    ensures named { Named pass.old pass.new }
{
    let mut passes = 0;
    let mut waits = no_wait();
    loop {
        passes += 1;
        let flag = run_child(pass, 0);
        if flag != Flag::SUSP {
            end_program(pass.state, flag);
            return report(
                pass.progress.events,
                pass.progress.done,
                pass.progress.parked,
                flag == Flag::TERM,
                passes,
                waits,
            );
        }
        waits = waits_after(pass, waits);
        pass.progress.next_pass();
    }
}

// A program whose last pass has answered: if it has ended, its phase is 3.
fn end_program(state: &mut [u8], flag: Flag)
    requires { 0 < length state.old }
    ensures { state.new ≡ ended flag 0 3 state.old }
{
    if flag == Flag::TERM {
        state[0] = GONE;
    }
}

// What is waited for after a pass that suspended: if nothing moved, the end is declared now, and that is looked for.
fn waits_after(pass: &Pass, waits: Wait) -> Wait
    requires { LeadsIfStill pass.now.table.now pass.now.state.now pass.now.progress }
    ensures { WaitsAfter pass.now.table.now pass.now.state.now pass.now.progress waits result }
{
    if pass.progress.moved {
        return waits;
    }
    waiting(pass.table, pass.state, pass.progress.events)
}

// The answer of an instant that was run, and the bytes parked.
fn report(
    events: EventSet,
    done: usize,
    parked: usize,
    finished: bool,
    passes: usize,
    waits: Wait,
) -> Ending
    ensures { Reported events done parked finished passes waits result }
{
    let answer = Answer {
        events,
        count: events.count(),
        lowest: events.lowest(),
        atoms: done,
        finished,
        passes,
        waits,
    };
    Ending { answer, parked }
}
