// The loader: a table is accepted with its figures, or refused with the first check that it fails. Nothing is loaded in part.
#![tactic(auto)]

ghost use Rattle.std.specs.Prelude.{◌≡◌};
ghost use Rattle.table.specs.Verdict.{verdict_of};

use configurations::first_bad;
use frame::Counts;

mod configurations;
mod early;
mod frame;
pub mod kinds;
pub mod nodes;
pub mod numbers;
pub mod reading;
pub mod records;
mod weights;

// What every instant of an accepted table is bounded by (01, "Loading figures"; L8 for the bytes of parked pieces).
#[derive(Clone, Copy, Debug, Default, PartialEq, Eq)]
pub struct Figures {
    pub generations: usize,
    pub atoms: usize,
    pub nodes: usize,
    pub parked: usize,
}

// Why a table is refused (01, "Refusal numbers"); specs/Verdict.antt has each one's number and index.
#[derive(Clone, Copy, PartialEq, Eq, Debug)]
pub enum TableRefusal {
    BadLength,
    BadCounts,
    BadDistances,
    BadConfiguration(usize),
    BadNode(usize),
    TooDeep(usize),
    EndlessLoop(usize),
    TooHeavy,
}

// Checks a table.
pub fn check(table: &[u8]) -> Result<Figures, TableRefusal>
    ensures { result ≡ verdict_of table.now }
{
    let Counts { n, m, v } = frame::frame_of(table)?;
    if let Some(bad) = first_bad(table, n, m, v) {
        return Err(TableRefusal::BadConfiguration(bad));
    }
    nodes::check_nodes(table, n, m, v)
}
