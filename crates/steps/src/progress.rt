// How far an instant has come, as its passes carry it on: the events, and what is counted or noted beside them.
ghost use Rattle.std.specs.Prelude.{◌≡◌, ◌+◌, ◌*◌, ◌<◌, min, length};
ghost use Rattle.events.specs.Events.{put};
ghost use Rattle.events.specs.Members.{places, marks};
ghost use Rattle.events.proofs.Bits.{digits};
ghost use Rattle.table.specs.Spells.{value_in, cap_in};
ghost use Rattle.steps.specs.Running.{values_in, times_at};
ghost use Rattle.steps.specs.Progress.{Put, words_of, tally_of, next_progress};

use crate::kinds::REPEAT;
use events::EventSet;
use table::records::{argument_at, kind_at};

#[derive(Clone, Copy)]
pub struct Progress {
    // The events present.
    pub events: EventSet,
    // How many atoms are done.
    pub done: usize,
    // Whether something moved in this pass.
    pub moved: bool,
    // Whether the end is declared.
    pub ended: bool,
    // The byte of the table where the configurations begin.
    pub base: usize,
    // The box's values, eight to a number, the first lowest.
    pub values: [u64; 2],
    // How many bytes are parked.
    pub parked: usize,
}

impl Progress {
    // Between two passes: the end is declared if nothing moved.
    pub fn next_pass(&mut self)
        ensures { self.new ≡ next_progress self.old }
    {
        self.ended = !self.moved;
        self.moved = false;
    }

    // Whether the event is present.
    pub fn has_event(&self, event: usize) -> bool
        requires { event < places }
        ensures { result ≡ marks (words_of self.now) event }
    {
        (self.events.words[event / 64] >> (event % 64)) % 2 == 1
    }

    // E+S or E-S: the event's digit is put into its word where that stands.
    pub fn put_event(&mut self, event: usize, present: bool)
        requires { event < places }
        ensures { Put event present self.old self.new }
    {
        let at = event / 64;
        self.events.words[at] = put_digit(self.events.words[at], event % 64, present);
    }

    // The same; whether the event was present is handed back. A Local's body begins and answers so: E+S or E-S by its sign, then E/F[S].
    pub fn exchange_event(&mut self, event: usize, present: bool) -> bool
        requires { event < places }
        ensures { (result ≡ marks (words_of self.old) event) × Put event present self.old self.new }
    {
        let was = self.has_event(event);
        self.put_event(event, present);
        was
    }

    // Value v of the box.
    pub fn value_of(&self, v: usize) -> u64
        requires { v < 16 }
        ensures { result ≡ values_in (tally_of self.now) v }
    {
        (self.values[v / 8] >> (8 * (v % 8))) % 256
    }

    // How often a RepeatExt with this argument runs when it begins: "the lesser of cap and value".
    fn times_asked(&self, argument: usize) -> usize
        ensures { result ≡ min (cap_in argument) (values_in (tally_of self.now) (value_in argument)) }
    {
        let value = self.value_of(argument % 16) as usize;
        value.min(argument / 16)
    }

    // How often the body of node i, a Repeat or a RepeatExt, is run once it begins.
    pub fn times_at(&self, table: &[u8], i: usize) -> usize
        requires { 6 * i + 3 < length table.now }
        ensures { result ≡ times_at table.now i (tally_of self.now) }
    {
        let argument = argument_at(table, i);
        if kind_at(table, i) == REPEAT {
            return argument;
        }
        self.times_asked(argument)
    }
}

// One binary digit of a word.
fn put_digit(word: u64, at: usize, present: bool) -> u64
    requires { at < 64 }
    ensures { digits result ≡ put at present (digits word) }
{
    if present {
        word | 1 << at
    } else {
        word & !(1 << at)
    }
}
