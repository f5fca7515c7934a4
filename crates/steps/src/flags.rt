// Flags inside a pass; a Par's flags byte is the first branch's and 4 times the second's.
ghost use Rattle.std.specs.Prelude.{◌≡◌, ◌≢◌, ◌+◌, ◌*◌, ◌<◌, length, get_or};
ghost use Rattle.steps.specs.Running.{phase_after, sign_after, gone, ended};
ghost use Rattle.junior.specs.declared.Flag.TheVariants.{SUSP, TERM};
ghost use Rattle.state.specs.StateBytes.{code};
ghost use Rattle.steps.specs.Flags.{flag_of, ParEnds, Heard};

use crate::phases::{GONE, PLUS};
use junior::Flag;

// δ₁ and δ₂ as a Par's flags byte; zero where the Par itself ends.
const KEPT: [[u8; 3]; 3] = [[0, 4, 8], [1, 0, 8], [2, 2, 0]];

// γ: the joined flag, by the first branch's and the second's (000, 2.4). A static: a const of an enum's values is built anew at each use.
static JOINED: [[Flag; 3]; 3] = [
    [Flag::SUSP, Flag::SUSP, Flag::SUSP],
    [Flag::SUSP, Flag::STOP, Flag::STOP],
    [Flag::SUSP, Flag::STOP, Flag::TERM],
];

// The flag that stands in a byte.
pub fn flag_at(byte: u8) -> Flag
    ensures { result ≡ flag_of byte }
{
    match byte {
        0 => Flag::SUSP,
        1 => Flag::STOP,
        _ => Flag::TERM,
    }
}

// A Par at byte `at` whose branches have both been run. Where both are suspended or both stop, its bytes are as they were; where both have ended,
// the flags stand in the call, which then compiles to no tables.
pub fn both_ran(state: &mut [u8], at: usize, second: usize, f: Flag, g: Flag) -> Flag
    requires in_bounds { (at + 4 < length state.old) × (second < length state.old) }
    requires flags_before { get_or state.old (at + 1) 0 ≡ 0 }
    ensures { ParEnds f g at second state.old state.new result }
{
    if f != g {
        return par_end(state, at, second, f, g);
    }
    if f != Flag::TERM {
        return f;
    }
    par_end(state, at, second, Flag::TERM, Flag::TERM)
}

// A Par at byte `at` whose first branch is suspended and whose second has answered g. It is suspended itself, whatever g is.
pub fn second_ran(state: &mut [u8], at: usize, second: usize, g: Flag) -> Flag
    requires in_bounds { (at + 4 < length state.old) × (second < length state.old) }
    requires flags_before { get_or state.old (at + 1) 0 ≡ 0 }
    ensures { ParEnds SUSP g at second state.old state.new result }
{
    if g == Flag::SUSP {
        return Flag::SUSP;
    }
    state[at + 1] = 4 * g as u8;
    end_branch(state, second, g, GONE);
    Flag::SUSP
}

// What a Par at byte `above` answers whose first branch is suspended and whose second, at byte `at`, has answered r; r if they are the same.
pub fn heard_above(state: &mut [u8], above: usize, at: usize, r: Flag) -> Flag
    requires { above ≢ at → (above + 4 < length state.old) × (at < length state.old) × (get_or state.old (above + 1) 0 ≡ 0) }
    ensures { Heard r above at state.old state.new result }
{
    if above == at {
        return r;
    }
    second_ran(state, above, at, r)
}

// A Par at byte `at` of which only the first branch has been run, the second's flag being g. Where that stays suspended, its bytes are as they were.
pub fn first_ran(state: &mut [u8], at: usize, second: usize, f: Flag, g: Flag) -> Flag
    requires in_bounds { (at + 4 < length state.old) × (second < length state.old) }
    requires flags_before { (get_or state.old (at + 1) 0 ≡ 4 * code g) × (g ≡ TERM → get_or state.old second 0 ≡ 3) }
    ensures { ParEnds f g at second state.old state.new result }
{
    if f == Flag::SUSP {
        return Flag::SUSP;
    }
    par_end(state, at, second, f, g)
}

// A Par at byte `at` whose branches have answered f and g: its flags, phase 3 for a branch that has ended, and the joined flag.
pub fn par_end(state: &mut [u8], at: usize, second: usize, f: Flag, g: Flag) -> Flag
    requires { (at + 4 < length state.old) × (second < length state.old) }
    ensures { ParEnds f g at second state.old state.new result }
{
    let a = f as usize;
    let b = g as usize;
    let joined = JOINED[a][b];
    state[at + 1] = KEPT[a][b];
    let phase = gone_in(joined);
    end_branch(state, at + 4, f, phase);
    end_branch(state, second, g, phase);
    joined
}

// The phase of an ended branch: 3 while its Par goes on.
fn gone_in(joined: Flag) -> u8
    ensures { result ≡ gone joined }
{
    if joined == Flag::TERM { 0 } else { GONE }
}

// A branch at byte `at` that has answered f: if it has ended, its phase.
fn end_branch(state: &mut [u8], at: usize, f: Flag, phase: u8)
    requires { at < length state.old }
    ensures { state.new ≡ ended f at phase state.old }
{
    if f == Flag::TERM {
        state[at] = phase;
    }
}

// The phase of a node in its part: 0 again once that has ended.
pub fn phase_after(f: Flag, phase: u8) -> u8
    ensures { result ≡ phase_after f phase }
{
    if f == Flag::TERM { 0 } else { phase }
}

// The sign of a Local whose body has answered, as a phase.
pub fn sign_after(f: Flag, present: bool) -> u8
    ensures { result ≡ sign_after f present }
{
    if f == Flag::SUSP && present { PLUS } else { 0 }
}
