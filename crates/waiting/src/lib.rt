// What an instant waits for (request L1): found once, when the end is declared, by one way down from node 0. The state shows which parts are
// suspended, and a Local's sign whether its event is present.
#![tactic(auto)]

ghost use Rattle.std.specs.Prelude.{◌≡◌, ◌*◌, length};
ghost use Rattle.events.specs.Members.{places, marks, members};
ghost use Rattle.waiting.specs.Down.{SomeStands, SomeLeads, LeadsTo, is_test, waits_itself, OwnWait, next_of, inside_of};

use events::{EventSet, WORDS, mark, marked};
use lacking::lacking_event;
use steps::kinds;
use steps::phases::{FLAGS, PLUS, SECOND, STARRED};
use table::records::{argument_at, kind_at, second_at, word_at};

mod lacking;

// A test that waits, by its node, and the event that it waits for.
#[derive(Clone, Copy)]
pub struct Wait {
    pub node: usize,
    pub event: usize,
}

// No node has this number, the limit of a table's nodes: an answer for C has it where no test waits (include/zapper.h).
pub const NO_NODE: usize = 4096;

// No test waits.
pub fn no_wait() -> Wait
    ensures { (result.node ≡ 4096) × (result.event ≡ places) }
{
    Wait {
        node: NO_NODE,
        event: EventSet::PLACES,
    }
}

// The first test that waits, in what a pass that suspended and moved nothing left.
pub fn waiting(table: &[u8], state: &[u8], events: EventSet) -> Wait
    requires { SomeLeads table.now state.now 0 (members events) }
    ensures { LeadsTo table.now state.now (members events) result }
{
    let mut words = events.words;
    let mut i = 0;
    loop {
        if let Some(event) = own_wait(table, state, i, &words) {
            return Wait { node: i, event };
        }
        enter(table, state, i, &mut words);
        i = next_node(table, state, i);
    }
}

// The event that node i itself waits for, the words' events being present.
fn own_wait(table: &[u8], state: &[u8], i: usize, words: &[u64; WORDS]) -> Option<usize>
    requires { SomeLeads table.now state.now i (marks words.now) }
    ensures { OwnWait table.now state.now i (marks words.now) result }
{
    let kind = kind_at(table, i);
    let phase = state[4 * i];
    if is_test(kind, phase) {
        let nodes = word_at(table, table.len() - 10);
        return lacking_event(table, 6 * nodes + 4 * argument_at(table, i), words);
    }
    if waits_itself(kind, phase) {
        let event = argument_at(table, i);
        if !marked(words, event) {
            return Some(event);
        }
    }
    None
}

// An Await or a When in phase 0 and an Until* are tests that wait. The kind comes first: from it the compiler makes one jump for all questions to a node.
fn is_test(kind: usize, phase: u8) -> bool
    ensures { result ≡ is_test kind phase }
{
    match kind {
        kinds::UNTIL => phase == STARRED,
        kinds::AWAIT | kinds::WHEN => phase == 0,
        _ => false,
    }
}

fn waits_itself(kind: usize, phase: u8) -> bool
    ensures { result ≡ waits_itself kind phase }
{
    match kind {
        kinds::CONTROL => true,
        kinds::FREEZABLE => phase == STARRED,
        _ => false,
    }
}

// Makes the words those of the events that are present below node i.
fn enter(table: &[u8], state: &[u8], i: usize, words: &mut [u64])
    requires some_stands { SomeStands table.now state.now i }
    requires words_long { 64 * length words.old ≡ places }
    ensures { marks words.new ≡ inside_of table.now state.now i (marks words.old) }
{
    if kind_at(table, i) == kinds::LOCAL {
        mark(words, argument_at(table, i), state[4 * i] == PLUS);
    }
}

// The child of node i that waits: of a Par the second if the first isn't suspended, of another form the second in phase 2.
fn next_node(table: &[u8], state: &[u8], i: usize) -> usize
    requires { SomeStands table.now state.now i }
    ensures { result ≡ next_of table.now state.now i }
{
    if kind_at(table, i) == kinds::PAR {
        if state[4 * i + FLAGS] % 4 == 0 {
            return i + 1;
        }
        return second_at(table, i);
    }
    if state[4 * i] == SECOND {
        return second_at(table, i);
    }
    i + 1
}
