// Refusals 1 to 3: the length, N, M and V, the distances.
ghost use Rattle.std.specs.Prelude.{◌≡◌, ◌+◌, ◌*◌, ◌≤◌, ◌<◌, ◌&&◌, leb, length};
ghost use Rattle.events.specs.Members.{places};
ghost use Rattle.table.specs.Verdict.{distances_good};
ghost use Rattle.table.specs.Records.{nodes, configurations};
ghost use Rattle.table.specs.Inside.Framing.{frame_of};

use super::TableRefusal;
use super::records::word_at;
use events::EventSet;

// How many nodes, configurations and events a table has.
#[derive(Clone, Copy)]
pub struct Counts {
    pub n: usize,
    pub m: usize,
    pub v: usize,
}

// N, M and V of a table that passes the three.
pub fn frame_of(table: &[u8]) -> Result<Counts, TableRefusal>
    ensures { result ≡ frame_of table.now }
{
    let length = table.len();
    if length < 16 {
        return Err(TableRefusal::BadLength);
    }
    if length > 32778 {
        return Err(TableRefusal::BadLength);
    }
    let n = word_at(table, length - 10);
    let m = word_at(table, length - 8);
    let v = word_at(table, length - 6);
    if counts_good(n, m, v) {
        if distances_good(table, n, m) {
            return Ok(Counts { n, m, v });
        }
        return Err(TableRefusal::BadDistances);
    }
    Err(TableRefusal::BadCounts)
}

fn counts_good(n: usize, m: usize, v: usize) -> bool
    ensures { result ≡ ((leb 1 n && leb n 4096) && (leb m 2048 && (leb 1 v && leb v places))) }
{
    if n < 1 {
        return false;
    }
    if n > 4096 {
        return false;
    }
    if m > 2048 {
        return false;
    }
    if v < 1 {
        return false;
    }
    v <= EventSet::PLACES
}

fn distances_good(table: &[u8], n: usize, m: usize) -> bool
    requires table_long { 16 ≤ length table.now }
    requires counts { (n ≡ nodes table.now) × (m ≡ configurations table.now) × (n < 65536) × (m < 65536) }
    ensures { result ≡ distances_good table.now }
{
    let length = table.len();
    let all = 6 * n + 4 * m;
    if word_at(table, length - 4) != all {
        return false;
    }
    if word_at(table, length - 2) != 4 * m {
        return false;
    }
    length == all + 10
}
