// Reading a text once from left to right: where it fails, or how large its table is.
ghost use Rattle.std.specs.Prelude.{suc, ◌+◌, ◌<◌, ◌≤◌, ◌%◌, ◌≡◌, length, set};
ghost use Rattle.std.specs.Option.{ForSome};
ghost use Rattle.form.specs.Inside.Rows.{long};
ghost use Rattle.form.specs.Inside.Counted.{a_node, a_test};
ghost use Rattle.scanner.specs.Places.{room_of, frame, entered, leaving, Ringed};
ghost use Rattle.scanner.specs.Scanning.{Somewhere, Taken, opened_at, tally_code};
ghost use Rattle.scanner.specs.Scanning.{tally_number, tally_at, Tells};

use crate::levels::{Frame, outer};
use crate::rules::{Turn, code_before, turn_at};
use form::Sizes;
use form::names::{INNER, NUMBER, Names, PARTS, PROGRAM, TEST};

// How many frames the ring has.
const RING: usize = 4096;

// Where the reader is: a place in the rules, the value so far of the number that it is in, the innermost open bracket
// (or behind the J whose bracket is still to come), the ring's next frame, and how many frames it holds.
#[derive(Clone, Copy)]
pub struct Place {
    pub pc: usize,
    pub number: Option<usize>,
    pub bracket: usize,
    pub depth: usize,
    pub live: usize,
}

fn room(live: usize) -> usize
    ensures { result ≡ room_of live }
{
    if live < RING {
        return live + 1;
    }
    live
}

// Into a rule; the ring takes the frame of the level that is left.
fn enter(at: Place, to: usize, bracket: usize, ring: &mut [Frame]) -> Place
    requires in_the_table { at.pc < long }
    requires not_too_deep { at.depth < 18446744073709551615 }
    requires ring_len { length ring.old ≡ 4096 }
    ensures place { result ≡ entered at to bracket }
    ensures left { ring.new ≡ set ring.old (at.depth % 4096) (frame at.bracket (suc at.pc)) }
{
    ring[at.depth % RING] = Frame {
        bracket: at.bracket,
        rest: at.pc + 1,
    };
    Place {
        pc: to,
        number: None,
        bracket,
        depth: at.depth + 1,
        live: room(at.live),
    }
}

// Out of a bracket, to the level round it, which the ring holds or the text tells.
#[tactic(auto, unfolding(crate::specs::Places::leaving))]
fn leave(names: &Names, text: &[u8], at: Place, ring: &[Frame]) -> Place
    requires in_the_text { at.bracket ≤ length text.now }
    requires ringed { Ringed at }
    requires ring_len { length ring.now ≡ 4096 }
    ensures { result ≡ leaving text.now at at.live ring.now }
{
    if at.live == 0 {
        let round = outer(names, text, at.bracket);
        return Place {
            pc: round.rest,
            number: None,
            bracket: round.bracket,
            ..at
        };
    }
    let depth = at.depth - 1;
    let frame = ring[depth % RING];
    Place {
        pc: frame.rest,
        number: None,
        bracket: frame.bracket,
        depth,
        live: at.live - 1,
    }
}

// Where a program's name or a configuration's bracket is whose first byte is at i.
#[tactic(auto, unfolding(crate::specs::Scanning::opened_at))]
fn opened(b: u8, i: usize) -> usize
    requires { i < 18446744073709551615 }
    ensures { result ≡ opened_at b i }
{
    if b == b'(' {
        return i;
    }
    i + 1
}

// Where the reader is behind byte i, if a reading goes on with it.
fn read_byte(names: &Names, text: &[u8], i: usize, at: Place, ring: &mut [Frame]) -> Option<Place>
    requires in_the_text { i < length text.now }
    requires somewhere { Somewhere text.now i at ring.old }
    requires ring_len { length ring.old ≡ 4096 }
    ensures { Taken text.now i at ring.old ring.new result }
{
    let b = text[i];
    let turn = turn_at(names, at.pc, at.number, b)?;
    match turn {
        Turn::On(pc, number) => Some(Place { pc, number, ..at }),
        Turn::Opens(pc) => Some(Place {
            pc,
            number: None,
            bracket: i,
            ..at
        }),
        Turn::Into(pc) => Some(enter(at, pc, opened(b, i), ring)),
        Turn::Out => Some(leave(names, text, at, ring)),
    }
}

// An event is named where its number has ended.
#[tactic(auto, unfolding(crate::specs::Scanning::tally_number))]
fn named(names: &Names, k: Sizes, pc: usize, value: usize, b: u8) -> Sizes
    requires low { value ≤ 65535 }
    ensures { result ≡ tally_number pc value b k }
{
    if b == names.code(pc) {
        if NUMBER <= code_before(names, pc) {
            return k;
        }
        return Sizes {
            events: k.events.max(value + 1),
            ..k
        };
    }
    k
}

fn one_node(k: Sizes) -> Sizes
    requires { k.nodes < 18446744073709551615 }
    ensures { result ≡ a_node k }
{
    Sizes {
        nodes: k.nodes + 1,
        ..k
    }
}

fn one_test(k: Sizes) -> Sizes
    requires { k.tests < 18446744073709551615 }
    ensures { result ≡ a_test k }
{
    Sizes {
        tests: k.tests + 1,
        ..k
    }
}

// What the byte b adds at a code.
#[tactic(auto, unfolding(crate::specs::Scanning::tally_code))]
fn counted_at(k: Sizes, x: u8, b: u8) -> Sizes
    requires few_nodes { k.nodes < 18446744073709551615 }
    requires few_tests { k.tests < 18446744073709551615 }
    ensures { result ≡ tally_code x b k }
{
    match x {
        PROGRAM => one_node(k),
        PARTS if b == b',' => one_node(k),
        TEST => one_test(k),
        INNER if b != b'n' => one_test(k),
        _ => k,
    }
}

// What the byte b adds to the counts.
#[tactic(auto, unfolding(crate::specs::Scanning::tally_at))]
fn counted(names: &Names, k: Sizes, pc: usize, number: Option<usize>, b: u8) -> Sizes
    requires few_nodes { k.nodes < 18446744073709551615 }
    requires few_tests { k.tests < 18446744073709551615 }
    requires low { ForSome number (λ v. v ≤ 65535) }
    ensures { result ≡ tally_at pc number b k }
{
    match number {
        Some(value) => named(names, k, pc, value, b),
        None => counted_at(k, names.code(pc), b),
    }
}

// Reads a text: its sizes, or the place where it fails. Never in line: the ring is off the stack again before a table is built.
#[inline(never)]
pub fn scan(text: &[u8]) -> Result<Sizes, usize>
    ensures { Tells text.now result }
{
    let names = Names::new();
    let mut ring = [Frame {
        bracket: 0,
        rest: 0,
    }; RING];
    let mut at = Place {
        pc: 0,
        number: None,
        bracket: 0,
        depth: 0,
        live: 0,
    };
    let mut k = Sizes {
        nodes: 0,
        tests: 0,
        events: 1,
    };
    for (i, b) in text.iter().enumerate() {
        let Some(next) = read_byte(&names, text, i, at, &mut ring) else {
            return Err(i);
        };
        k = counted(&names, k, at.pc, at.number, *b);
        at = next;
    }
    if names.code(at.pc) == 0 {
        return Ok(k);
    }
    Err(text.len())
}
