// Reading an input line.
ghost use Rattle.std.specs.Prelude.{◌≡◌, ◌<◌, length};
ghost use Rattle.letters.specs.Decimal.{figure};
ghost use Rattle.listing.specs.Inside.{EventAt, GoesOn, NamedBy};

use events::{EventSet, WORDS};
use letters::digit;

// The events that a text names, a byte that is no digit between their numbers; none if it has another form.
pub fn read_events(line: &[u8], separator: u8) -> Option<EventSet>
    requires { figure separator ≡ 10 }
    ensures { NamedBy separator line.now result }
{
    let mut words = [0u64; WORDS];
    // By places, since a number's end is known only once it is read.
    let mut at = 0;
    while at < line.len() {
        let Token { event, next } = event_at(line, at)?;
        events::mark(&mut words, event, true);
        if line.len() <= next {
            return Some(EventSet { words });
        }
        if line[next] != separator {
            return None;
        }
        at = next + 1;
    }
    None
}

// An event in a line, and where its number ends.
#[derive(Clone, Copy)]
struct Token {
    event: usize,
    next: usize,
}

// The event at byte `at` of a line, if one stands there.
fn event_at(line: &[u8], at: usize) -> Option<Token>
    requires { at < length line.now }
    ensures { EventAt line.now at result }
{
    let mut event = digit(line[at])?;
    let mut next = at + 1;
    while let Some(d) = digit_at(line, next, event) {
        event = 10 * event + d;
        next += 1;
    }
    if EventSet::PLACES <= event {
        return None;
    }
    Some(Token { event, next })
}

// The digit at byte `at` of a line with which a number goes on: a 0 is a number by itself, and one past all events is none whatever follows.
fn digit_at(line: &[u8], at: usize, number: usize) -> Option<usize>
    ensures { GoesOn line.now at number result }
{
    if line.len() <= at {
        return None;
    }
    // The digit is asked for first: behind most numbers there is none.
    let d = digit(line[at])?;
    if number == 0 || EventSet::PLACES <= number {
        return None;
    }
    Some(d)
}
