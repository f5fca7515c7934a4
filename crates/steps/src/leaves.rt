// What a pass does at nodes without children, and what a test comes to. Each node tests for phase 3 itself: it then reads as Nothing, rule 1.
ghost use Rattle.std.specs.Prelude.{◌≡◌, true, ◌≢◌, ◌+◌, ◌*◌, ◌<◌, ◌≤◌, length, get_or, set};
ghost use Rattle.state.specs.Kinds.{nothing_kind, stop_kind, atom_kind, generate_kind, await_kind};
ghost use Rattle.steps.specs.Kinds.{OfKind, all_seen};
ghost use Rattle.steps.specs.Lent.{CanPass, HasPassed, CanPassBeside, HasPassedBeside};
ghost use Rattle.steps.specs.Tests.{CanTest, TestIs, StarRead, lone_event};

use crate::Pass;
use crate::phases::{GONE, SECOND, STARRED, clear_part};
use crate::progress::Progress;
use events::marked;
use junior::{Flag, Verdict};
use table::reading::read_configuration;
use table::records::{argument_at, part_event, part_kind};

// Rule 1.
pub fn run_nothing(pass: &mut Pass, i: usize) -> Flag
    requires { CanPassBeside all_seen (OfKind nothing_kind) pass.old i }
    ensures { HasPassedBeside all_seen (OfKind nothing_kind) pass.old i pass.new result }
{
    pass.state[4 * i] = 0;
    Flag::TERM
}

// Rule 2.
pub fn run_stop(pass: &mut Pass, i: usize) -> Flag
    requires { CanPassBeside all_seen (OfKind stop_kind) pass.old i }
    ensures { HasPassedBeside all_seen (OfKind stop_kind) pass.old i pass.new result }
{
    if pass.state[4 * i] == GONE {
        pass.state[4 * i] = 0;
        return Flag::TERM;
    }
    pass.state[4 * i] = GONE;
    Flag::STOP
}

// Rule 3: the atom's number goes into the row. In line in the dispatcher, as the next: a call would give that a frame, at each node.
#[inline(always)]
pub fn run_atom(pass: &mut Pass, i: usize) -> Flag
    requires { CanPass all_seen (OfKind atom_kind) pass.old i }
    ensures { HasPassed all_seen (OfKind atom_kind) pass.old i pass.new result }
{
    if pass.state[4 * i] == GONE {
        pass.state[4 * i] = 0;
        return Flag::TERM;
    }
    pass.progress.done = put_atom(pass.atoms, pass.progress.done, argument_at(pass.table, i));
    Flag::TERM
}

// One atom more in the row, and how many there are then.
fn put_atom(atoms: &mut [u16], at: usize, atom: usize) -> usize
    requires { (at < length atoms.old) × (atom < 65536) }
    ensures { (result ≡ at + 1) × (atoms.new ≡ set atoms.old at atom) }
{
    atoms[at] = atom as u16;
    at + 1
}

// Rule 16: E+S.
#[inline(always)]
pub fn run_generate(pass: &mut Pass, i: usize) -> Flag
    requires { CanPassBeside all_seen (OfKind generate_kind) pass.old i }
    ensures { HasPassedBeside all_seen (OfKind generate_kind) pass.old i pass.new result }
{
    if pass.state[4 * i] == GONE {
        pass.state[4 * i] = 0;
        return Flag::TERM;
    }
    pass.progress.put_event(argument_at(pass.table, i), true);
    pass.progress.moved = true;
    Flag::TERM
}

// Rules 22 to 25. A lone event, the most frequent test, is looked at here; the rest stays apart, so that what runs an Await needs no room for it.
pub fn run_await(pass: &mut Pass, i: usize) -> Flag
    requires { CanPassBeside all_seen (OfKind await_kind) pass.old i }
    ensures { HasPassedBeside all_seen (OfKind await_kind) pass.old i pass.new result }
{
    if pass.state[4 * i] == GONE {
        return run_tested(pass, i);
    }
    if lone_event(pass.table, i, &pass.progress) {
        return run_lone(pass, i);
    }
    run_tested(pass, i)
}

// Any Await, by what its test is read as.
#[inline(never)]
fn run_tested(pass: &mut Pass, i: usize) -> Flag
    requires { CanPassBeside all_seen (OfKind await_kind) pass.old i }
    ensures { HasPassedBeside all_seen (OfKind await_kind) pass.old i pass.new result }
{
    if pass.state[4 * i] == GONE {
        pass.state[4 * i] = 0;
        return Flag::TERM;
    }
    match read_test(pass.table, i, &pass.progress) {
        Verdict::Unknown => Flag::SUSP,
        Verdict::Unsat => Flag::STOP,
        Verdict::Sat => {
            if pass.progress.ended {
                pass.state[4 * i] = GONE;
                return Flag::STOP;
            }
            Flag::TERM
        }
    }
}

// Whether node i tests a lone event.
fn lone_event(table: &[u8], i: usize, progress: &Progress) -> bool
    requires { CanTest table.now i progress.now }
    ensures { result ≡ lone_event table.now i }
{
    part_kind(table, progress.base + 4 * argument_at(table, i)) == 0
}

// An Await of a lone event: absent, it leaves the Await waiting, or stopped once the end is declared.
fn run_lone(pass: &mut Pass, i: usize) -> Flag
    requires can_pass { CanPassBeside all_seen (OfKind await_kind) pass.old i }
    requires lone_and_there { (get_or pass.old.state.now (4 * i) 0 ≢ 3) × (lone_event pass.old.table.now i ≡ true) }
    ensures { HasPassedBeside all_seen (OfKind await_kind) pass.old i pass.new result }
{
    let c = pass.progress.base + 4 * argument_at(pass.table, i);
    if marked(&pass.progress.events.words, part_event(pass.table, c)) {
        if pass.progress.ended {
            pass.state[4 * i] = GONE;
            return Flag::STOP;
        }
        return Flag::TERM;
    }
    if !pass.progress.ended {
        return Flag::SUSP;
    }
    Flag::STOP
}

// What the configuration that node i tests is read as now.
pub fn test_at(table: &[u8], i: usize, progress: &Progress) -> Verdict
    requires { CanTest table.now i progress.now }
    ensures { TestIs table.now i progress.now result }
{
    read_test(table, i, progress)
}

// An Until* at byte `at`, its handler at byte `second`, by what its test has been read as: rules 31 to 34. TERM where the handler is now to be run.
pub fn read_star(state: &mut [u8], at: usize, second: usize, verdict: Verdict, ended: bool) -> Flag
    requires { (at + 4 ≤ second) × (second ≤ length state.old) }
    ensures { StarRead verdict ended at second state.old state.new result }
{
    match verdict {
        Verdict::Unknown => {
            state[at] = STARRED;
            Flag::SUSP
        }
        Verdict::Unsat => {
            state[at] = 0;
            Flag::STOP
        }
        Verdict::Sat => {
            clear_part(state, at + 4, second);
            if ended {
                state[at] = SECOND;
                return Flag::STOP;
            }
            Flag::TERM
        }
    }
}

// The same. An Await reads its test by this and not by `test_at`: so the compiler puts the reading into `run_tested`, and that into nothing.
fn read_test(table: &[u8], i: usize, progress: &Progress) -> Verdict
    requires { CanTest table.now i progress.now }
    ensures { TestIs table.now i progress.now result }
{
    let c = progress.base + 4 * argument_at(table, i);
    read_configuration(table, c, &progress.events.words, progress.ended)
}
