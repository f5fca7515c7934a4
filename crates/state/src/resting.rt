// Refusal 10: a state that isn't at rest (specs/Resting.antt). The nodes with a byte other than zero are met from the last to the first.
// The last one met is the nearest such node, `near`, behind all nodes that are still to judge, and so tells which subtrees are all zero.
ghost use Rattle.std.specs.Prelude.{◌≡◌, true, false, not, ◌&&◌, ◌+◌, ◌*◌, ◌<◌, ◌≤◌, length, MatchOption};
ghost use Rattle.events.specs.Events.{lowest};
ghost use Rattle.table.specs.Records.{kind_at, argument_at, size_at};
ghost use Rattle.table.specs.Good.{known, children};
ghost use Rattle.table.specs.Kinds.{kind_number};
ghost use Rattle.table.specs.Inside.{Rooted};
ghost use Rattle.state.specs.Resting.{zero_node, zero_nodes, second_zero, repeats, most_runs, phase_rests, count_rests, rests};
ghost use Rattle.state.specs.Inside.{own, Number, one_ended, counted_below, TwosFrom, ZeroFrom, Tells, Judged, Judging, Blamed};

use table::kinds::{Kind, kind_of};
use table::records::{argument_at, second_at, size_at, wide};

// A phase of 1 and a flags byte of 1, in a node's own bytes as one number.
const PHASE: usize = 16777216;

const FLAGS: usize = 65536;

// The phases at rest but for 0: begun, in its second part, gone.
const BEGUN: usize = 1;

const SECOND: usize = 2;

const GONE: usize = 3;

// A Par's flags where its first branch has answered TERM, where its second has.
const FIRST_TERM: usize = 2;

const SECOND_TERM: usize = 8;

// Node i's own bytes as one number.
fn own_at(state: &[u8], i: usize) -> usize
    requires { 4 * i + 3 < length state.now }
    ensures { Number state.now i result }
{
    let mut own = [0; 4];
    own.copy_from_slice(&state[4 * i..4 * i + 4]);
    u32::from_be_bytes(own) as usize
}

// Those of nodes i and i + 1.
fn two_at(state: &[u8], i: usize) -> usize
    requires { 4 * i + 7 < length state.now }
    ensures { result ≡ own state.now i * 4294967296 + own state.now (i + 1) }
{
    let mut two = [0; 8];
    two.copy_from_slice(&state[4 * i..4 * i + 8]);
    u64::from_be_bytes(two) as usize
}

// Whether node i has no byte but zeros.
#[tactic(auto, using(crate::proofs::Zeros::own_tested))]
fn zero_node(state: &[u8], i: usize) -> bool
    requires { 4 * i + 3 < length state.now }
    ensures { result ≡ zero_node state.now i }
{
    own_at(state, i) == 0
}

// Whether the m nodes from a on have no byte but zeros.
#[tactic(auto, using(crate::proofs::Zeros::zero_all, crate::proofs::Zeros::zero_not))]
fn zero_nodes(state: &[u8], a: usize, m: usize) -> bool
    requires { 4 * (a + m) ≤ length state.now }
    ensures { result ≡ zero_nodes state.now a m }
{
    for i in a..a + m {
        if !zero_node(state, i) {
            return false;
        }
    }
    true
}

// The same, where `near` may tell.
fn zero_part(state: &[u8], near: usize, a: usize, m: usize) -> bool
    requires { Tells state.now near a m }
    ensures { result ≡ zero_nodes state.now a m }
{
    if a + m <= near {
        return true;
    }
    if a <= near {
        return false;
    }
    zero_nodes(state, a, m)
}

// How often the body of node i runs at most, if it is a repetition: a Repeat's count, a RepeatExt's cap.
pub fn most_runs(table: &[u8], i: usize) -> Option<usize>
    requires inside { 6 * i + 3 < length table.now }
    requires known_kind { known (kind_at table.now i) ≡ true }
    ensures { MatchOption result (repeats (kind_at table.now i) ≡ false)
        (λ most. (repeats (kind_at table.now i) ≡ true) × (most ≡ most_runs (kind_at table.now i) (argument_at table.now i)) × (most < 65536)) }
{
    match kind_of(table, i) {
        Kind::Repeat => Some(argument_at(table, i)),
        Kind::RepeatExt => Some(argument_at(table, i) / 16),
        _ => None,
    }
}

// Whether own bytes are phase 1 and a count above 0 and below `most`.
fn counted(own: usize, most: usize) -> bool
    requires { most < 65536 }
    ensures { result ≡ counted_below own most }
{
    PHASE < own && own < PHASE + most
}

// A node that is judged where it stands, by the nearest node behind it that has a byte other than zero.
#[derive(Clone, Copy)]
struct Node<'a> {
    table: &'a [u8],
    state: &'a [u8],
    i: usize,
    near: usize,
    ghost judging: { Judging table.now state.now i near },
}

impl Node<'_> {
    fn kind(&self) -> Kind
        ensures { kind_number result ≡ kind_at self.now.table.now self.now.i }
    {
        kind_of(self.table, self.i)
    }

    // The node behind its subtree.
    fn end(&self) -> usize
        ensures { result ≡ self.now.i + size_at self.now.table.now self.now.i }
    {
        self.i + size_at(self.table, self.i)
    }

    // Whether its second child's subtree is all zero.
    fn second_zero(&self) -> bool
        requires two_children { children (kind_at self.now.table.now self.now.i) ≡ 2 }
        ensures { result ≡ second_zero self.now.table.now self.now.state.now self.now.i }
    {
        let end = self.end();
        if end <= self.near {
            return true;
        }
        let second = second_at(self.table, self.i);
        zero_part(self.state, self.near, second, end - second)
    }

    // Whether it rests in phase 2: all of its first child's subtree is zero.
    fn second_rests(&self) -> bool
        ensures { result ≡ phase_rests self.now.table.now self.now.state.now self.now.i (kind_at self.now.table.now self.now.i) 2 }
    {
        match self.kind() {
            Kind::Seq | Kind::When | Kind::Until | Kind::If => {
                second_at(self.table, self.i) <= self.near
            }
            _ => false,
        }
    }

    // Whether it rests in phase 1, its count 0.
    fn begun_rests(&self) -> bool
        ensures { result
            ≡ (phase_rests self.now.table.now self.now.state.now self.now.i (kind_at self.now.table.now self.now.i) 1
            && count_rests self.now.table.now self.now.i (kind_at self.now.table.now self.now.i) 1 0) }
    {
        match self.kind() {
            Kind::Loop => true,
            Kind::When | Kind::If => self.second_zero(),
            _ => match most_runs(self.table, self.i) {
                Some(most) => 0 < most,
                None => false,
            },
        }
    }

    // Whether it, a Par, rests with one of its flags TERM: that branch is in phase 3.
    fn flag_rests(&self, own: usize) -> bool
        requires par { kind_at self.now.table.now self.now.i ≡ 4 }
        ensures { result ≡ one_ended self.now.table.now self.now.state.now self.now.i own }
    {
        if own == FIRST_TERM * FLAGS {
            return wide(self.state[4 * (self.i + 1)]) == GONE;
        }
        if own == SECOND_TERM * FLAGS {
            return wide(self.state[4 * second_at(self.table, self.i)]) == GONE;
        }
        false
    }

    // Whether it rests with a count above 0.
    fn count_rests(&self, own: usize) -> bool
        ensures counted { result
            ≡ (repeats (kind_at self.now.table.now self.now.i)
            && counted_below own (most_runs (kind_at self.now.table.now self.now.i) (argument_at self.now.table.now self.now.i))) }
        ensures fits { result ≡ true
            → most_runs (kind_at self.now.table.now self.now.i) (argument_at self.now.table.now self.now.i) < 65536 }
    {
        match most_runs(self.table, self.i) {
            Some(most) => counted(own, most),
            None => false,
        }
    }

    // Whether it rests, where it has a byte other than zero. Its own bytes are compared as one number: most have a phase alone.
    fn rests(&self) -> bool
        requires { zero_node self.now.state.now self.now.i ≡ false }
        ensures { result ≡ rests self.now.table.now self.now.state.now self.now.i }
    {
        let own = own_at(self.state, self.i);
        if own == GONE * PHASE {
            return self.end() <= self.near;
        }
        if own == SECOND * PHASE {
            return self.second_rests();
        }
        if own == BEGUN * PHASE {
            return self.begun_rests();
        }
        match self.kind() {
            Kind::Par => self.flag_rests(own),
            _ => self.count_rests(own),
        }
    }

    // Whether it rests, where it has no byte but zeros and `near` is below it.
    fn fresh_rests(&self) -> bool
        requires { self.now.near < self.now.i + size_at self.now.table.now self.now.i }
        ensures { result ≡ phase_rests self.now.table.now self.now.state.now self.now.i (kind_at self.now.table.now self.now.i) 0 }
    {
        match self.kind() {
            Kind::Par | Kind::Control | Kind::Local | Kind::Freezable => true,
            Kind::Seq | Kind::Until => self.second_zero(),
            _ => false,
        }
    }
}

// The lowest blamed node from i on, `low` being that of those behind i. Node i has a byte other than zero.
fn begun_low(table: &[u8], state: &[u8], i: usize, near: usize, low: usize) -> usize
    requires judging { Judging table.now state.now i near × (zero_node state.now i ≡ false) }
    requires blamed { Blamed table.now state.now (i + 1) low }
    ensures { Blamed table.now state.now i result }
{
    let node = Node {
        table,
        state,
        i,
        near,
    };
    if node.rests() {
        return low;
    }
    i
}

// The same for all nodes from i up to `near`, which have no byte but zeros. A subtree that is all zero rests as a whole: the walk goes past it.
fn fresh_low(table: &[u8], state: &[u8], i: usize, near: usize, low: usize) -> usize
    requires judged { Judged table.now state.now i near }
    requires blamed { Blamed table.now state.now near low }
    ensures { Blamed table.now state.now i result }
{
    let mut at = i;
    while at < near {
        let node = Node {
            table,
            state,
            i: at,
            near,
        };
        let end = node.end();
        if end <= near {
            at = end;
            continue;
        }
        if node.fresh_rests() {
            at += 1;
            continue;
        }
        return at;
    }
    low
}

// Where the nodes before `near` that have no byte but zeros begin, two by two: one test of eight bytes is half the work, in each call of an instant.
fn zero_twos(state: &[u8], near: usize) -> usize
    requires { 4 * near ≤ length state.now }
    ensures { TwosFrom state.now near result }
{
    let mut i = near;
    while 1 < i {
        if two_at(state, i - 2) != 0 {
            return i;
        }
        i -= 2;
    }
    i
}

// Where they begin.
fn zero_from(state: &[u8], near: usize) -> usize
    requires { 4 * near ≤ length state.now }
    ensures { ZeroFrom state.now near result }
{
    let i = zero_twos(state, near);
    if i == 0 {
        return 0;
    }
    if !zero_node(state, i - 1) {
        return i;
    }
    i - 1
}

// The lowest node to blame for a state that isn't at rest, if there is one. The table's first n records are a subtree: all of a table's, or those of
// a part of it from its first record on.
pub fn first_blamed(table: &[u8], n: usize, state: &[u8]) -> Option<usize>
    requires rooted { Rooted table.now n }
    requires state_long { 4 * n ≤ length state.now }
    ensures { MatchOption result (lowest n (λ i. not (rests table.now state.now i)) ≡ n)
        (λ i. (i ≡ lowest n (λ i. not (rests table.now state.now i))) × (i < n)) }
{
    let low = lowest_blamed(table, n, state);
    if low < n {
        return Some(low);
    }
    None
}

// The same, n if there is none: so the walk, which goes backwards, has a number for those behind it from the start.
fn lowest_blamed(table: &[u8], n: usize, state: &[u8]) -> usize
    requires rooted { Rooted table.now n }
    requires state_long { 4 * n ≤ length state.now }
    ensures { Blamed table.now state.now 0 result }
{
    let mut near = n;
    let mut low = n;
    while 0 < near {
        let from = zero_from(state, near);
        low = fresh_low(table, state, from, near, low);
        if from == 0 {
            return low;
        }
        low = begun_low(table, state, from - 1, near, low);
        near = from - 1;
    }
    low
}
