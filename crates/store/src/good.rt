// Refusal 25: a store that isn't laid out as pieces at rest (specs/Store.antt).
ghost use Rattle.std.specs.Prelude.{◌≡◌, true, cond, ◌&&◌, ◌+◌, ◌-◌, ◌*◌, ◌<◌, ◌≤◌, eqb, leb, length, drop, Some, MatchOption};
ghost use Rattle.events.specs.Events.{lowest};
ghost use Rattle.table.specs.Records.{nodes, size_at};
ghost use Rattle.table.specs.Part.{part_table, above, never_runs};
ghost use Rattle.table.specs.Inside.{Loaded};
ghost use Rattle.state.specs.Resting.{blamed};
ghost use Rattle.store.specs.Store.{in_use, node_of, piece_length, is_body, piece_good, pieces_good, store_good, event_at, newest};
ghost use Rattle.store.specs.Inside.{Under, Next, all_run, Spared};

use state::resting::{first_blamed, most_runs};
use table::kinds::{Kind, kind_of};
use table::records::{argument_at, second_at, size_at, word_at};

// Whether the way down to a piece's body is gone.
#[derive(Clone, Copy)]
enum Ways {
    // For so many more pieces it is; then all nodes are looked at. So a few pieces under a large table don't cost a look at all nodes.
    Few(usize),
    // For each: some node of the table never runs.
    Each,
    // For none: all nodes run.
    Free,
}

// Whether node i is a repetition of count or cap 0.
fn never_runs(table: &[u8], i: usize) -> bool
    requires { Loaded table.now × (i < nodes table.now) }
    ensures { result ≡ never_runs table.now i }
{
    most_runs(table, i) == Some(0)
}

// The child of node i on the way down to node j.
fn next_to(table: &[u8], i: usize, j: usize) -> usize
    requires { Under table.now i j × (i < j) }
    ensures { Next table.now i j result }
{
    let second = second_at(table, i);
    if j < second {
        return i + 1;
    }
    second
}

// Whether no node above node j is one: the way down from the root is gone. Each step goes to a child, past all nodes that don't stand above node j.
fn runs_above(table: &[u8], j: usize) -> bool
    requires { Loaded table.now × (j < nodes table.now) }
    ensures { result ≡ eqb (lowest j (λ i. above table.now j i && never_runs table.now i)) j }
{
    let mut i = 0;
    while i < j {
        if never_runs(table, i) {
            return false;
        }
        i = next_to(table, i, j);
    }
    true
}

// Whether no node of the table is one.
#[tactic(auto, using(crate::proofs::Ways::all_seen, crate::proofs::Ways::one_seen))]
fn all_run(table: &[u8]) -> bool
    requires { Loaded table.now }
    ensures { result ≡ all_run table.now }
{
    for i in 0..word_at(table, table.len() - 10) {
        if never_runs(table, i) {
            return false;
        }
    }
    true
}

// How the next piece is tested.
fn next_ways(table: &[u8], ways: Ways) -> Ways
    requires { Loaded table.now × Spared table.now ways }
    ensures { Spared table.now result }
{
    match ways {
        Ways::Few(0) if all_run(table) => Ways::Free,
        Ways::Few(0) => Ways::Each,
        Ways::Few(n) => Ways::Few(n - 1),
        _ => ways,
    }
}

// Whether no node above node j is a repetition of count or cap 0.
fn way_free(table: &[u8], ways: Ways, j: usize) -> bool
    requires { Loaded table.now × Spared table.now ways × (j < nodes table.now) }
    ensures { result ≡ eqb (lowest j (λ i. above table.now j i && never_runs table.now i)) j }
{
    match ways {
        Ways::Free => true,
        _ => runs_above(table, j),
    }
}

// Whether node j is the body of a Freezable of this event, with no such repetition above it.
fn is_body(table: &[u8], ways: Ways, event: usize, j: usize) -> bool
    requires { Loaded table.now × Spared table.now ways }
    ensures { result ≡ is_body table.now event j }
{
    if j == 0 {
        return false;
    }
    if word_at(table, table.len() - 10) <= j {
        return false;
    }
    match kind_of(table, j - 1) {
        Kind::Freezable => argument_at(table, j - 1) == event && way_free(table, ways, j),
        _ => false,
    }
}

// The piece at byte `at` if it is of this event, else the one found before it.
fn later_of(store: &[u8], event: usize, at: usize, found: Option<usize>) -> Option<usize>
    requires { at + 1 < length store.now }
    ensures { result ≡ cond (eqb (event_at store.now at) event) (Some at) found }
{
    if word_at(store, at) == event {
        return Some(at);
    }
    found
}

// The pieces of a store up to byte `end`, under their table.
#[derive(Clone, Copy)]
pub(crate) struct Pieces<'a> {
    pub(crate) table: &'a [u8],
    pub(crate) store: &'a [u8],
    pub(crate) end: usize,
    ghost loaded: { Loaded table.now },
    ghost inside: { end ≤ length store.now },
}

impl Pieces<'_> {
    // Whether the body at node j, whose state begins at byte `at`, ends by byte `end` and is at rest.
    fn body_good(&self, at: usize, j: usize) -> bool
        requires { (j < nodes self.now.table.now) × (at ≤ self.now.end) }
        ensures { result ≡ (leb (at + 4 * size_at self.now.table.now j) self.now.end
            && eqb (blamed (part_table self.now.table.now j) (drop at self.now.store.now)) (size_at self.now.table.now j)) }
    {
        let n = size_at(self.table, j);
        if self.end - at < 4 * n {
            return false;
        }
        first_blamed(&self.table[6 * j..], n, &self.store[at..]).is_none()
    }

    // Whether the piece at byte `at` is good.
    fn is_good(&self, ways: Ways, at: usize) -> bool
        requires { Spared self.now.table.now ways × (at ≤ self.now.end) }
        ensures { result ≡ piece_good self.now.table.now self.now.store.now self.now.end at }
    {
        if self.end - at < 4 {
            return false;
        }
        let j = word_at(self.store, at + 2);
        if is_body(self.table, ways, word_at(self.store, at), j) {
            return self.body_good(at + 4, j);
        }
        false
    }

    // Where the piece behind the one at byte `at` begins.
    fn behind(&self, at: usize) -> usize
        requires { (at + 3 < length self.now.store.now) × (node_of self.now.store.now at < nodes self.now.table.now) }
        ensures { result ≡ at + piece_length self.now.table.now self.now.store.now at }
    {
        at + 4 + 4 * size_at(self.table, word_at(self.store, at + 2))
    }

    // Whether good pieces, one behind the other, fill the store from byte 2 on.
    fn all_good(&self) -> bool
        requires { 2 ≤ self.now.end }
        ensures { result ≡ pieces_good self.now.table.now self.now.store.now self.now.end (self.now.end - 2) 2 }
    {
        let mut ways = Ways::Few(word_at(self.table, self.table.len() - 10) / 16);
        let mut at = 2;
        while at < self.end {
            ways = next_ways(self.table, ways);
            if !self.is_good(ways, at) {
                return false;
            }
            at = self.behind(at);
        }
        true
    }

    // Where the newest of an event begins, if there is one.
    pub(crate) fn newest_at(&self, event: usize) -> Option<usize>
        requires good { store_good self.now.table.now self.now.store.now ≡ true }
        requires all { self.now.end ≡ 2 + in_use self.now.store.now }
        ensures { MatchOption result (newest self.now.table.now self.now.store.now event ≡ 0)
            (λ at. (at ≡ newest self.now.table.now self.now.store.now event) × (0 < at)) }
    {
        let mut at = 2;
        let mut found = None;
        while at < self.end {
            found = later_of(self.store, event, at, found);
            at = self.behind(at);
        }
        found
    }
}

// Whether the store is good.
pub fn store_good(table: &[u8], store: &[u8]) -> bool
    requires { Loaded table.now }
    ensures { result ≡ store_good table.now store.now }
{
    if store.len() < 2 {
        return false;
    }
    let used = word_at(store, 0);
    if store.len() - 2 < used {
        return false;
    }
    let pieces = Pieces {
        table,
        store,
        end: 2 + used,
    };
    pieces.all_good()
}
