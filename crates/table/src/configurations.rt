// Refusal 4: the lowest configuration that isn't good.
ghost use Rattle.std.specs.Prelude.{◌≡◌, true, ◌&&◌, ℕ, ◌≤◌, eqb};
ghost use Rattle.events.specs.Members.{places};
ghost use Rattle.table.specs.Records.{configurations, events, part_kind};
ghost use Rattle.table.specs.Good.{good_but_height, height_at_most, good_configuration};
ghost use Rattle.table.specs.Inside.{Framed, ConfigurationsGood, Begins, SomeBegins, LowestBad, PartsGood};
ghost use Rattle.table.specs.Inside.Ways.{Way, outward, numbered};

use super::records::{part_kind, part_size, wide, word_at};

// The lowest configuration that isn't good.
pub fn first_bad(table: &[u8], n: usize, m: usize, v: usize) -> Option<usize>
    requires { Framed table.now n m v }
    ensures { LowestBad (good_configuration table.now) (configurations table.now) result }
{
    if all_good(table, n, m, v) {
        return None;
    }
    lowest_bad(table, n, m, v)
}

// Looks at each configuration once. The way to it, as a number, has as many digits as it is deep, so a height above 16 shows as
// a number above 65,535.
fn all_good(table: &[u8], n: usize, m: usize, v: usize) -> bool
    requires { Framed table.now n m v }
    ensures { result ≡ true → ConfigurationsGood table.now }
{
    let mut way: u32 = 1;
    for j in 0..m {
        let c = 6 * n + 4 * j;
        if lone(table, v, c) {
            way = closed(way);
        } else {
            let Some(parts) = parts_good(table, c) else {
                return false;
            };
            way = 2 * way + (parts - 1);
            if way > 65535 {
                return false;
            }
        }
    }
    true
}

// The way behind a lone event: digits 0 at the end are parts with nothing to come behind them. Behind a whole configuration it is 1 again.
fn closed(way: u32) -> u32
    requires { 1 ≤ way }
    ensures { (w : Way) → way ≡ numbered w → result ≡ numbered (outward w) }
{
    let open = way >> u32::trailing_zeros(way);
    open - u32::from(open > 1)
}

// The configuration at byte c is a good event: with V at most 1,024, a kind byte of 64 or more is as good as an event that isn't below V.
fn lone(table: &[u8], v: usize, c: usize) -> bool
    requires some_begins { SomeBegins table.now c }
    requires v_is { (v ≡ events table.now) × (v ≤ places) }
    ensures { (j : ℕ) → Begins table.now c j → result ≡ (eqb (part_kind table.now c) 0 && good_but_height table.now j) }
{
    if part_kind(table, c) == 0 {
        if 16 * wide(table[c]) + wide(table[c + 1]) < v {
            return part_size(table, c) == 1;
        }
    }
    false
}

// How many parts the configuration at byte c has; none if it isn't good but for its height, or is an event.
fn parts_good(table: &[u8], c: usize) -> Option<u32>
    requires { SomeBegins table.now c }
    ensures { (j : ℕ) → Begins table.now c j → PartsGood table.now c j result }
{
    let end = table.len() - 10;
    if c + 4 < end {
        let head = word_at(table, c);
        let size = part_size(table, c);
        let first = part_size(table, c + 4);
        if head == 256 {
            if size == 1 + first {
                return Some(1);
            }
            return None;
        }
        let second = c + 4 + 4 * first;
        if second < end {
            if size == 1 + first + part_size(table, second) {
                if head == 512 {
                    return Some(2);
                }
                if head == 768 {
                    return Some(2);
                }
            }
        }
    }
    None
}

// The same record by record, each with all below it.
fn lowest_bad(table: &[u8], n: usize, m: usize, v: usize) -> Option<usize>
    requires { Framed table.now n m v }
    ensures { LowestBad (good_configuration table.now) (configurations table.now) result }
{
    for j in 0..m {
        if !good(table, v, 6 * n + 4 * j) {
            return Some(j);
        }
    }
    None
}

fn good(table: &[u8], v: usize, c: usize) -> bool
    requires some_begins { SomeBegins table.now c }
    requires v_is { (v ≡ events table.now) × (v ≤ places) }
    ensures { (j : ℕ) → Begins table.now c j → result ≡ good_configuration table.now j }
{
    if lone(table, v, c) {
        return true;
    }
    match parts_good(table, c) {
        Some(_) => low(table, c),
        None => false,
    }
}

// Its height is at most 16: its records one after another, with the way to each as above. One without good parts is passed over by its size.
fn low(table: &[u8], c: usize) -> bool
    requires { SomeBegins table.now c }
    ensures { (j : ℕ) → Begins table.now c j → result ≡ height_at_most table.now 16 j }
{
    let mut way: u32 = 1;
    let mut at = c;
    loop {
        match parts_good(table, at) {
            None => {
                let next = closed(way);
                if next == 1 {
                    return true;
                }
                way = next;
                at += 4 * part_size(table, at);
            }
            Some(parts) => {
                way = 2 * way + (parts - 1);
                if way >= 65536 {
                    return false;
                }
                at += 4;
            }
        }
    }
}
