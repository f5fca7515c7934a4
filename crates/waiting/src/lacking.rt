// The event that a configuration lacks, found where it stands: its records one after another, no call nested in another.
ghost use Rattle.std.specs.Prelude.{◌≡◌, ◌+◌, ◌<◌, min, cond, length};
ghost use Rattle.events.specs.Members.{marks};
ghost use Rattle.table.specs.Reading.{ConfigurationAt};
ghost use Rattle.waiting.specs.Lacking.{lowest_after, LacksAs};

use events::{EventSet, WORDS, marked};
use table::records::{part_event, part_kind, part_size};

// Of the configuration at byte c: the lowest event that it mentions and that the words don't mark.
pub fn lacking_event(table: &[u8], c: usize, words: &[u64; WORDS]) -> Option<usize>
    requires { ConfigurationAt table.now c }
    ensures { LacksAs table.now c words.now result }
{
    let mut low = EventSet::PLACES;
    for record in 0..part_size(table, c) {
        low = lowest_after(table, c + 4 * record, words, low);
    }
    if low < EventSet::PLACES {
        Some(low)
    } else {
        None
    }
}

// The lowest so far, the record at byte `at` included; `PLACES` while there is none: that is above every event, and so no case of its own.
fn lowest_after(table: &[u8], at: usize, words: &[u64; WORDS], low: usize) -> usize
    requires { at + 1 < length table.now }
    ensures { result ≡ lowest_after table.now words.now at low }
{
    if part_kind(table, at) == 0 {
        lower_absent(words, part_event(table, at), low)
    } else {
        low
    }
}

// The event if it is lower than the lowest so far, which is seldom and therefore asked first, and absent.
fn lower_absent(words: &[u64; WORDS], event: usize, low: usize) -> usize
    ensures { result ≡ cond (marks words.now event) low (min event low) }
{
    if low <= event || marked(words, event) {
        low
    } else {
        event
    }
}
