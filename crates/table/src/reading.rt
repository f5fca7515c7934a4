// Reading a configuration where it stands, by the definitions fixed and eval (000, 4.1). In clauses a verdict is its rank: 0 unsat,
// 1 unknown, 2 sat.
ghost use Rattle.std.specs.Prelude.{◌≡◌, cond, eqb, List, ℕ, ◌/◌, ◌<◌, length};
ghost use Rattle.events.specs.Members.{marks};
ghost use Rattle.table.specs.Reading.{ConfigurationAt, ReadAs};
ghost use Rattle.table.specs.Inside.Levels.{Level, levelled, SomeLevels, Open, SomeOpen, sat_rank, ClosesOne, Falls, Closes, unsettled};
ghost use Rattle.table.specs.Inside.Ranks.{rank, joined_rank, RanksAs, IsAbsentRank};

use super::records::{part_event, part_kind, part_size};
use events::{WORDS, marked};
use junior::Verdict;
use std::ops::ControlFlow;

// What the configuration at byte c is read as, the events being those that the words mark. Before the end is declared a lone event costs no call.
pub fn read_configuration(table: &[u8], c: usize, words: &[u64; WORDS], ended: bool) -> Verdict
    requires configuration_at { ConfigurationAt table.now c }
    requires table_short { length table.now < 65536 }
    ensures { ReadAs table.now c words.now ended result }
{
    if !ended {
        if part_kind(table, c) == 0 {
            return event_verdict(words, part_event(table, c), Verdict::Unknown);
        }
    }
    read_records(table, c, words, ended)
}

// The same by all records, compiled once for each of what an absent event is: it isn't asked at each event.
#[inline(never)]
fn read_records(table: &[u8], c: usize, words: &[u64; WORDS], ended: bool) -> Verdict
    requires configuration_at { ConfigurationAt table.now c }
    requires table_short { length table.now < 65536 }
    ensures { ReadAs table.now c words.now ended result }
{
    if ended {
        return verdict_at(table, c, words, Verdict::Unsat);
    }
    verdict_at(table, c, words, Verdict::Unknown)
}

// Where reading has come to: the next record's byte; the levels open there, as digits to base 16 behind a leading 2 (1 a not, 2 an and, 3 an
// or, 4 and 5 these in their second part, the first being unknown).
#[derive(Clone, Copy)]
pub struct Place {
    pub at: usize,
    pub levels: u64,
}

// What is left where a level has been closed: the part within is sat or unsat, or it is unknown, or the level's second part is to be read.
#[derive(Clone, Copy)]
pub enum Closed {
    Decided(Place, bool),
    Undecided(Place),
    Second(Place),
}

// Of the configuration at byte c, by its records one after another; an event that isn't present is what `absent` says. Levels open are kept in
// one word: a height of 16 leaves at most 15.
#[inline(always)]
fn verdict_at(table: &[u8], c: usize, words: &[u64; WORDS], absent: Verdict) -> Verdict
    requires configuration_at { ConfigurationAt table.now c }
    requires absent_rank { IsAbsentRank (rank absent) }
    requires table_short { length table.now < 65536 }
    ensures { RanksAs table.now c words.now (rank absent) (rank result) }
{
    let top = part_kind(table, c);
    if top == 0 {
        return event_verdict(words, part_event(table, c), absent);
    }
    let mut levels: u64 = 32 + top as u64;
    let mut at = c + 4;
    loop {
        let kind = part_kind(table, at);
        if kind == 0 {
            let present = marked(words, part_event(table, at));
            match after_event(table, at + 4, levels, present, absent) {
                ControlFlow::Break(verdict) => return verdict,
                ControlFlow::Continue(next) => {
                    at = next.at;
                    levels = next.levels;
                }
            }
        } else {
            levels = 16 * levels + kind as u64;
            at += 4;
        }
    }
}

// Behind an event: the levels that it closes. All are closed with a verdict, or another part is to be read next.
fn after_event(
    table: &[u8],
    at: usize,
    levels: u64,
    present: bool,
    absent: Verdict,
) -> ControlFlow<Verdict, Place>
    requires some_open { SomeOpen table.now at levels }
    requires absent_rank { IsAbsentRank (rank absent) }
    ensures { (o : List Level) → Open table.now at levels o → Closes table.now at o (cond present 2 (rank absent)) result }
{
    if present || absent == Verdict::Unsat {
        return after_decided(table, at, levels, present);
    }
    after_unknown(at, levels)
}

// Behind an unknown part: a second part is next, or all is unknown.
fn after_unknown(at: usize, levels: u64) -> ControlFlow<Verdict, Place>
    requires { SomeLevels levels }
    ensures { (t : List ℕ) (o : List Level) → Open t at levels o → Closes t at o 1 result }
{
    let left = leave_unknown(levels);
    if left == 2 {
        return ControlFlow::Break(Verdict::Unknown);
    }
    ControlFlow::Continue(Place {
        at,
        levels: left + 2,
    })
}

// The levels that an unknown part doesn't close: a not, and a second part, the first being unknown, are unknown too.
fn leave_unknown(before: u64) -> u64
    requires { SomeLevels before }
    ensures { (o : List Level) → before ≡ levelled o → result ≡ levelled (unsettled o) }
{
    let mut levels = before;
    while levels % 4 < 2 {
        levels /= 16;
    }
    levels
}

// Behind a part that is sat or unsat: it closes levels as long as it decides them.
fn after_decided(table: &[u8], from: usize, before: u64, first: bool) -> ControlFlow<Verdict, Place>
    requires { SomeOpen table.now from before }
    ensures { (o : List Level) → Open table.now from before o → Closes table.now from o (sat_rank first) result }
{
    let mut levels = before;
    let mut at = from;
    let mut sat = first;
    while levels > 2 {
        match close(table, at, levels, sat) {
            Closed::Decided(place, still) => {
                at = place.at;
                levels = place.levels;
                sat = still;
            }
            Closed::Undecided(place) => return after_unknown(place.at, place.levels),
            Closed::Second(place) => return ControlFlow::Continue(place),
        }
    }
    ControlFlow::Break(decided(sat))
}

// Closes the innermost level behind a part that is sat or unsat. Unsat decides an and, sat an or, which has an odd digit. What the first part
// decides, the second isn't asked: it is passed over by its size. What it leaves to the second, the second alone decides. A second part that
// doesn't decide leaves the level unknown.
fn close(table: &[u8], at: usize, levels: u64, sat: bool) -> Closed
    requires some_open { SomeOpen table.now at levels }
    requires inside_a_level { 2 < levels }
    ensures falls { Falls levels result }
    ensures closes_one { (o : List Level) → Open table.now at levels o → ClosesOne table.now at o (sat_rank sat) result }
{
    let level = levels % 16;
    let rest = levels / 16;
    let here = Place { at, levels: rest };
    if level == 1 {
        return Closed::Decided(here, !sat);
    }
    let or = level % 2 == 1;
    if level < 4 {
        if sat == or {
            let behind = Place {
                at: at + 4 * part_size(table, at),
                levels: rest,
            };
            return Closed::Decided(behind, sat);
        }
        return Closed::Second(here);
    }
    if sat != or {
        return Closed::Undecided(here);
    }
    Closed::Decided(here, sat)
}

fn event_verdict(words: &[u64; WORDS], event: usize, absent: Verdict) -> Verdict
    ensures { rank result ≡ cond (marks words.now event) 2 (rank absent) }
{
    if marked(words, event) {
        return Verdict::Sat;
    }
    absent
}

fn decided(sat: bool) -> Verdict
    ensures { rank result ≡ sat_rank sat }
{
    if sat {
        return Verdict::Sat;
    }
    Verdict::Unsat
}

// Of an and (kind 2) or an or (3), by its parts' ranks: early.rt's, which are no verdicts.
pub fn joined_rank(kind: usize, first: usize, second: usize) -> usize
    ensures { result ≡ joined_rank kind first second }
{
    if kind == 2 {
        return first.min(second);
    }
    first.max(second)
}
