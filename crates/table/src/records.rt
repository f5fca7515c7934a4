// Reading the table's records where they stand. A caller shows that the record lies within the table.
ghost use Rattle.std.specs.Prelude.{◌≡◌, ◌+◌, ◌*◌, ◌<◌, length, get_or};
ghost use Rattle.events.specs.Members.{places};
ghost use Rattle.table.specs.Records.{word, kind_at, zero_at, argument_at, size_at, second_child, part_kind, part_event, part_size};

// A byte as a number.
pub fn wide(x: u8) -> usize
    ensures { (result ≡ x) × (result < 256) }
{
    usize::from(x)
}

// The number of 16 bits at byte i.
pub fn word_at(t: &[u8], i: usize) -> usize
    requires { i + 1 < length t.now }
    ensures { (result ≡ word t.now i) × (result < 65536) }
{
    usize::from(u16::from_be_bytes([t[i], t[i + 1]]))
}

// Node i's kind.
pub fn kind_at(t: &[u8], i: usize) -> usize
    requires { 6 * i < length t.now }
    ensures { (result ≡ kind_at t.now i) × (result < 256) }
{
    wide(t[6 * i])
}

// Node i's zero byte.
pub fn zero_at(t: &[u8], i: usize) -> usize
    requires { 6 * i + 1 < length t.now }
    ensures { (result ≡ zero_at t.now i) × (result < 256) }
{
    wide(t[6 * i + 1])
}

// Node i's first two bytes as a number: its kind, if its zero byte is zero.
pub fn head_at(t: &[u8], i: usize) -> usize
    requires { 6 * i + 1 < length t.now }
    ensures { (result ≡ kind_at t.now i + 256 * zero_at t.now i) × (kind_at t.now i < 256) }
{
    kind_at(t, i) + 256 * zero_at(t, i)
}

// Node i's argument.
pub fn argument_at(t: &[u8], i: usize) -> usize
    requires { 6 * i + 3 < length t.now }
    ensures { (result ≡ argument_at t.now i) × (result < 65536) }
{
    word_at(t, 6 * i + 2)
}

// Node i's size.
pub fn size_at(t: &[u8], i: usize) -> usize
    requires { 6 * i + 5 < length t.now }
    ensures { (result ≡ size_at t.now i) × (result < 65536) }
{
    word_at(t, 6 * i + 4)
}

// The index of node i's second child.
pub fn second_at(t: &[u8], i: usize) -> usize
    requires { 6 * i + 11 < length t.now }
    ensures { result ≡ second_child t.now i }
{
    i + 1 + size_at(t, i + 1)
}

// The kind of the configuration at byte c. It stays a number: the reader keeps it as a digit of the levels that are open, and the loader compares it
// together with the byte behind it.
pub fn part_kind(t: &[u8], c: usize) -> usize
    requires { c < length t.now }
    ensures { (result ≡ part_kind t.now c) × (result < 16) }
{
    wide(t[c]) % 16
}

// Its event: the kind byte has the number's upper part.
pub fn part_event(t: &[u8], c: usize) -> usize
    requires { c + 1 < length t.now }
    ensures { (result ≡ part_event t.now c) × (result < places) }
{
    wide(t[c]) / 16 % 4 * 256 + wide(t[c + 1])
}

// Its size.
pub fn part_size(t: &[u8], c: usize) -> usize
    requires { c + 3 < length t.now }
    ensures { (result ≡ part_size t.now c) × (result < 65536) }
{
    word_at(t, c + 2)
}
