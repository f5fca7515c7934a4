// A pass: a function for each form, or for two that differ in one step; a child is run by `run_child`. A node that answers TERM leaves its subtree's
// bytes all zero; whoever keeps it in sight marks it as phase 3. What `run_child` goes on to has to stay apart from it in the compiled code, so that a
// leaf doesn't pay for the registers of the largest form: the larger ones are called from two places, or run a nested node of their own form themselves.
#![tactic(auto, using(crate::proofs::Indices::own_fits))]

ghost use Rattle.state.specs.Kinds.{seq_kind, loop_kind, control_kind, local_kind};
ghost use Rattle.steps.specs.Running.{Any};
ghost use Rattle.steps.specs.Kinds.{all_seen, phase_unseen, OfKind, Repetition, Choice, Break, BothSuspended, NotBoth, InSecond};
ghost use Rattle.steps.specs.Lent.{CanPass, HasPassed};

use junior::{Flag, Verdict};
use steps::flags::{
    both_ran, first_ran, flag_at, heard_above, par_end, phase_after, second_ran, sign_after,
};
use steps::leaves::{read_star, run_atom, run_await, run_generate, run_nothing, run_stop, test_at};
use steps::parking::{run_pending, stays_pending};
use steps::phases::{
    BEGUN, COUNT, FLAGS, GONE, PLUS, SECOND, STARRED, THEN, begin_turn, both_suspended, chosen,
    end_turns, turns_left,
};
use steps::{Pass, kinds};
use table::records::{argument_at, kind_at, second_at};

// Runs node i once. The most frequent kinds are told apart first.
#[cycle(run)]
pub fn run_child(pass: &mut Pass, i: usize) -> Flag
    requires { CanPass all_seen Any pass.old i }
    ensures { HasPassed all_seen Any pass.old i pass.new result }
{
    let kind = kind_at(pass.table, i);
    if kind == kinds::PAR {
        if both_suspended(pass.state[4 * i], pass.state[4 * i + FLAGS]) {
            return run_par(pass, i);
        }
        return run_half(pass, i);
    }
    if kind == kinds::AWAIT {
        return run_await(pass, i);
    }
    if kind == kinds::SEQ {
        return run_seq(pass, i);
    }
    match kind {
        kinds::NOTHING => run_nothing(pass, i),
        kinds::STOP => run_stop(pass, i),
        kinds::ATOM => run_atom(pass, i),
        kinds::LOOP => run_loop(pass, i),
        kinds::REPEAT => run_repeat(pass, i),
        kinds::REPEAT_EXT => run_repeat(pass, i),
        kinds::GENERATE => run_generate(pass, i),
        kinds::WHEN => run_when(pass, i),
        kinds::UNTIL => run_until(pass, i),
        kinds::CONTROL => run_control(pass, i),
        kinds::FREEZABLE => {
            if stays_pending(pass.table, i, pass.state[4 * i], &pass.progress) {
                return Flag::SUSP;
            }
            run_until(pass, i)
        }
        kinds::IF => run_when(pass, i),
        _ => run_local(pass, i),
    }
}

// Rule 8: both branches run. Where the first is suspended, so is the Par, whatever its second answers: a second that is such a Par is gone on with
// here and not by a call. `above` is the Par whose second branch `at` is, its first being suspended; `at` itself at the first turn.
#[cycle(run)]
fn run_par(pass: &mut Pass, i: usize) -> Flag
    requires { CanPass all_seen BothSuspended pass.old i }
    ensures { HasPassed all_seen BothSuspended pass.old i pass.new result }
{
    let mut above = i;
    let mut at = i;
    loop {
        let f = run_child(pass, at + 1);
        let second = second_at(pass.table, at);
        let g = if kind_at(pass.table, second) != kinds::PAR {
            run_child(pass, second)
        } else if both_suspended(pass.state[4 * second], pass.state[4 * second + FLAGS]) {
            if f == Flag::SUSP {
                above = at;
                at = second;
                continue;
            }
            run_par(pass, second)
        } else {
            run_half(pass, second)
        };
        if f == Flag::SUSP {
            return second_ran(pass.state, 4 * at, 4 * second, g);
        }
        let r = both_ran(pass.state, 4 * at, 4 * second, f, g);
        return heard_above(pass.state, 4 * above, 4 * at, r);
    }
}

// Rules 10 and 11: a branch flagged STOP or TERM is not run.
#[cycle(run)]
fn run_half(pass: &mut Pass, i: usize) -> Flag
    requires { CanPass all_seen NotBoth pass.old i }
    ensures { HasPassed all_seen NotBoth pass.old i pass.new result }
{
    if pass.state[4 * i] == GONE {
        pass.state[4 * i] = 0;
        return Flag::TERM;
    }
    let flags = pass.state[4 * i + FLAGS];
    let second = second_at(pass.table, i);
    let low = flags % 4;
    if low == 0 {
        let g = flag_at(flags / 4);
        let f = run_child(pass, i + 1);
        return first_ran(pass.state, 4 * i, 4 * second, f, g);
    }
    let g = run_child(pass, second);
    par_end(pass.state, 4 * i, 4 * second, flag_at(low), g)
}

// Rules 4 and 5.
#[cycle(run)]
fn run_seq(pass: &mut Pass, i: usize) -> Flag
    requires { CanPass all_seen (OfKind seq_kind) pass.old i }
    ensures { HasPassed all_seen (OfKind seq_kind) pass.old i pass.new result }
{
    let phase = pass.state[4 * i];
    if phase == GONE {
        pass.state[4 * i] = 0;
        return Flag::TERM;
    }
    if phase == SECOND {
        return run_second(pass, i);
    }
    let f = run_child(pass, i + 1);
    if f != Flag::TERM {
        return f;
    }
    let second = second_at(pass.table, i);
    let g = if kind_at(pass.table, second) == kinds::SEQ {
        run_seq(pass, second)
    } else {
        run_child(pass, second)
    };
    pass.state[4 * i] = phase_after(g, SECOND);
    g
}

// A Seq, When, Until or If that has gone over, or now goes over, into its second child: phase 2 until that ends.
#[cycle(run)]
fn run_second(pass: &mut Pass, i: usize) -> Flag
    requires { CanPass phase_unseen InSecond pass.old i }
    ensures { HasPassed phase_unseen InSecond pass.old i pass.new result }
{
    let second = second_at(pass.table, i);
    let f = if pass.state[4 * second] == SECOND {
        run_second(pass, second)
    } else {
        run_child(pass, second)
    };
    pass.state[4 * i] = phase_after(f, SECOND);
    f
}

// A Loop: the rest of its body by rules 4 and 5, or rule 12: the body runs from its start. It stops, so it doesn't end in this pass, and 000's rule 13
// is never met (L5).
#[cycle(run)]
fn run_loop(pass: &mut Pass, i: usize) -> Flag
    requires { CanPass all_seen (OfKind loop_kind) pass.old i }
    ensures { HasPassed all_seen (OfKind loop_kind) pass.old i pass.new result }
{
    let phase = pass.state[4 * i];
    if phase == GONE {
        pass.state[4 * i] = 0;
        return Flag::TERM;
    }
    if phase == BEGUN {
        let f = run_child(pass, i + 1);
        if f != Flag::TERM {
            return f;
        }
    }
    let f = run_child(pass, i + 1);
    pass.state[4 * i] = BEGUN;
    f
}

// A Repeat or a RepeatExt: rules 14 and 15 when it begins, 4 and 5 in the rest of a run of its body. How often a RepeatExt runs is asked of the box when
// it begins (001, "Extended Repeat"); from then on it is a Repeat. The kind of the body is read once for all runs, and a Nothing costs no call.
#[cycle(run)]
fn run_repeat(pass: &mut Pass, i: usize) -> Flag
    requires { CanPass all_seen Repetition pass.old i }
    ensures { HasPassed all_seen Repetition pass.old i pass.new result }
{
    let phase = pass.state[4 * i];
    if phase == GONE {
        pass.state[4 * i] = 0;
        return Flag::TERM;
    }
    let turns = if phase == 0 {
        pass.progress.times_at(pass.table, i)
    } else {
        turns_left(pass.state[4 * i + COUNT], pass.state[4 * i + COUNT + 1])
    };
    if turns == 0 {
        return Flag::TERM;
    }
    let kind = kind_at(pass.table, i + 1);
    // How many are left is counted, since that is what the state keeps of a repetition that goes on in the next instant.
    let mut left = turns - 1;
    loop {
        let f = if kind == kinds::NOTHING {
            run_nothing(pass, i + 1)
        } else {
            run_child(pass, i + 1)
        };
        if f != Flag::TERM {
            begin_turn(pass.state, 4 * i, left);
            return f;
        }
        if left == 0 {
            end_turns(pass.state, 4 * i);
            return Flag::TERM;
        }
        left -= 1;
    }
}

// A When by rules 17 to 21. An If (001, "Boolean Test") differs in how its branch is chosen: when it is reached, by a value, and it runs at once.
#[cycle(run)]
fn run_when(pass: &mut Pass, i: usize) -> Flag
    requires { CanPass all_seen Choice pass.old i }
    ensures { HasPassed all_seen Choice pass.old i pass.new result }
{
    let phase = pass.state[4 * i];
    if phase == GONE {
        pass.state[4 * i] = 0;
        return Flag::TERM;
    }
    let mut second = phase == SECOND;
    if phase == 0 {
        if kind_at(pass.table, i) == kinds::IF {
            second = pass.progress.value_of(argument_at(pass.table, i)) == 0;
        } else {
            let verdict = test_at(pass.table, i, &pass.progress);
            if verdict == Verdict::Unknown {
                return Flag::SUSP;
            }
            second = verdict == Verdict::Unsat;
            if pass.progress.ended {
                pass.state[4 * i] = chosen(second);
                return Flag::STOP;
            }
        }
    }
    if second {
        return run_second(pass, i);
    }
    let f = run_child(pass, i + 1);
    pass.state[4 * i] = phase_after(f, THEN);
    f
}

// An Until by rules 29 to 34. A Freezable differs in what follows once its body has stopped: rules 40 and 41, and 42 to 45 in `run_pending`.
#[cycle(run)]
fn run_until(pass: &mut Pass, i: usize) -> Flag
    requires { CanPass all_seen Break pass.old i }
    ensures { HasPassed all_seen Break pass.old i pass.new result }
{
    let phase = pass.state[4 * i];
    if phase == GONE {
        pass.state[4 * i] = 0;
        return Flag::TERM;
    }
    if phase == SECOND {
        return run_second(pass, i);
    }
    if phase != STARRED {
        let f = run_child(pass, i + 1);
        if f != Flag::STOP {
            return f;
        }
    }
    if kind_at(pass.table, i) == kinds::FREEZABLE {
        return run_pending(pass, i);
    }
    let verdict = test_at(pass.table, i, &pass.progress);
    let second = second_at(pass.table, i);
    let ended = pass.progress.ended;
    let f = read_star(pass.state, 4 * i, 4 * second, verdict, ended);
    if f != Flag::TERM {
        return f;
    }
    run_second(pass, i)
}

// Rules 26 to 28.
#[cycle(run)]
fn run_control(pass: &mut Pass, i: usize) -> Flag
    requires { CanPass all_seen (OfKind control_kind) pass.old i }
    ensures { HasPassed all_seen (OfKind control_kind) pass.old i pass.new result }
{
    if pass.state[4 * i] == GONE {
        pass.state[4 * i] = 0;
        return Flag::TERM;
    }
    if pass.progress.has_event(argument_at(pass.table, i)) {
        return run_child(pass, i + 1);
    }
    if !pass.progress.ended {
        return Flag::SUSP;
    }
    Flag::STOP
}

// Rules 35 to 39: the body runs with the event as the sign says, and outside it is again as it was.
#[cycle(run)]
fn run_local(pass: &mut Pass, i: usize) -> Flag
    requires { CanPass all_seen (OfKind local_kind) pass.old i }
    ensures { HasPassed all_seen (OfKind local_kind) pass.old i pass.new result }
{
    let phase = pass.state[4 * i];
    if phase == GONE {
        pass.state[4 * i] = 0;
        return Flag::TERM;
    }
    let event = argument_at(pass.table, i);
    let outside = pass.progress.exchange_event(event, phase == PLUS);
    let f = run_child(pass, i + 1);
    let inside = pass.progress.exchange_event(event, outside);
    pass.state[4 * i] = sign_after(f, inside);
    f
}
