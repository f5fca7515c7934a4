// Sets of events by value: `members` says which events a set's words mark as present, and every contract goes by it.
#![tactic(auto)]

ghost use Rattle.std.specs.Prelude.{◌≡◌, ◌&&◌, false, ◌*◌, ltb, length};
ghost use Rattle.events.specs.Events.{none, put, how_many, lowest};
ghost use Rattle.events.specs.Members.{places, marks, members};

// How many words a set has: the one number here that says its size.
pub const WORDS: usize = 16;

#[derive(Clone, Copy)]
pub struct EventSet {
    pub words: [u64; WORDS],
}

impl EventSet {
    // The events that have a place are those below this number.
    pub const PLACES: usize = 64 * WORDS;

    pub fn empty() -> Self
        ensures { members result ≡ none }
    {
        Self { words: [0; WORDS] }
    }

    // E+S. An event without a place stays absent.
    pub fn with(self, event: usize) -> Self
        ensures { members result ≡ put event (ltb event places) (members self) }
    {
        self.put(event, true)
    }

    // E-S.
    pub fn without(self, event: usize) -> Self
        ensures { members result ≡ put event false (members self) }
    {
        self.put(event, false)
    }

    // E/F[S], F being `by`.
    pub fn forced(self, event: usize, by: EventSet) -> Self
        ensures { members result ≡ put event (members by event) (members self) }
    {
        self.put(event, by.holds(event))
    }

    fn put(self, event: usize, present: bool) -> Self
        ensures { members result ≡ put event (present && ltb event places) (members self) }
    {
        let mut words = self.words;
        mark(&mut words, event, present);
        Self { words }
    }

    // An event without a place is absent.
    pub fn holds(self, event: usize) -> bool
        ensures { result ≡ members self event }
    {
        marked(&self.words, event)
    }

    // How many events are present.
    pub fn count(self) -> usize
        ensures { result ≡ how_many places (members self) }
    {
        let mut n: usize = 0;
        for word in self.words.iter() {
            n += word.count_ones() as usize;
        }
        n
    }

    // The lowest event that is present, or `PLACES` if none is: the number that an answer for C has then (include/zapper.h).
    pub fn lowest(self) -> usize
        ensures { result ≡ lowest places (members self) }
    {
        for (at, word) in self.words.iter().enumerate() {
            let low = word.trailing_zeros() as usize;
            if low < 64 {
                return 64 * at + low;
            }
        }
        Self::PLACES
    }
}

// Whether the event is marked in words that are lent, however many.
pub fn marked(words: &[u64], event: usize) -> bool
    ensures { result ≡ marks words.now event }
{
    let at = event / 64;
    if at < words.len() {
        return (words[at] >> (event % 64)) % 2 == 1;
    }
    false
}

// Marks the event in words that are lent, however many, or takes its mark away. An event without a place there stays absent.
pub fn mark(words: &mut [u64], event: usize, present: bool)
    ensures { marks words.new
        ≡ put event (present && ltb event (64 * length words.old)) (marks words.old) }
{
    let at = event / 64;
    if at < words.len() {
        if present {
            words[at] |= 1 << (event % 64);
        } else {
            words[at] &= !(1 << (event % 64));
        }
    }
}
