// When each configuration can be decided before the end of an instant is declared (L2): 0 false only, 1 either way, 2 true only. Found
// once for each, from the last to the first, so that its parts' are found before it; a row lent by the caller keeps them. Numbers, since the
// row has a byte for each: the smaller wins an and, the larger an or, and a not mirrors.
ghost use Rattle.std.specs.Prelude.{◌≡◌, ◌+◌, ◌*◌, ◌≤◌, ◌<◌, length, get_or};
ghost use Rattle.table.specs.Records.{configurations, argument_at};
ghost use Rattle.table.specs.Kinds.{kind_number};
ghost use Rattle.table.specs.Inside.Early.{SomeFramed, KnownFrom, AllKnown, Behind, EarlyAt, TestsAt};

use super::kinds::Kind;
use super::reading::joined_rank;
use super::records::{argument_at, part_kind, part_size, wide};

pub fn find_early(table: &[u8], n: usize, m: usize, early: &mut [u8])
    requires some_framed { SomeFramed table.now n m }
    requires early_long { m ≤ length early.old }
    ensures { KnownFrom table.now early.new 0 }
{
    for j in (0..m).rev() {
        let e = early_at(table, 6 * n + 4 * j, j, early);
        early[j] = e as u8;
    }
}

// Of configuration j, at byte c; those behind it are in the row.
fn early_at(table: &[u8], c: usize, j: usize, early: &[u8]) -> usize
    requires { Behind table.now early.now c j }
    ensures { EarlyAt table.now c result }
{
    let kind = part_kind(table, c);
    if kind == 0 {
        return 2;
    }
    let first = wide(early[j + 1]);
    if kind == 1 {
        return 2 - first;
    }
    let second = wide(early[j + 1 + part_size(table, c + 4)]);
    joined_rank(kind, first, second)
}

// Of the test of node i, of kind k; 0 if it has none, which nothing asks.
pub fn early_for(table: &[u8], i: usize, k: Kind, early: &[u8]) -> usize
    requires inside { 6 * i + 3 < length table.now }
    requires all_known { AllKnown table.now early.now }
    requires among { 8 ≤ kind_number k → kind_number k ≤ 10 → argument_at table.now i < configurations table.now }
    ensures { TestsAt table.now i (kind_number k) result }
{
    match k {
        Kind::Await | Kind::When | Kind::Until => wide(early[argument_at(table, i)]),
        _ => 0,
    }
}
