// What reading tells of how a text may go on.
ghost use Rattle.std.specs.Prelude.{MatchOption};
ghost use Rattle.form.specs.Fails.{Begins, Fails};
ghost use Rattle.zap_read.specs.Told.{Told, HasReading};

use text::ReadRefusal;
use text::read::read;

// Where a text fails that has no reading.
fn fails_at(text: &[u8]) -> Option<usize>
    ensures { MatchOption result (HasReading text.now) (λ k. Fails text.now k) }
{
    let answer = read(text, &mut []);
    match answer {
        Err(ReadRefusal::Fails(k)) => Some(k),
        _ => None,
    }
}

// Some text of the form begins so.
pub fn begins(text: &[u8]) -> bool
    ensures { Told result (Begins text.now) }
{
    match fails_at(text) {
        Some(k) => k == text.len(),
        None => true,
    }
}

// The text has a reading.
pub fn is_whole(text: &[u8]) -> bool
    ensures { Told result (HasReading text.now) }
{
    fails_at(text).is_none()
}
