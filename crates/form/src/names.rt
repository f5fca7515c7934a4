// The table of names: for each form, in the order of the kinds, its name and what stands in its brackets.
ghost use Rattle.std.specs.Prelude.{◌≡◌, ◌-◌, ◌<◌, ◌≤◌, MatchOption, position, take, drop};
ghost use Rattle.form.specs.Inside.Rows.{TheNames, names as the_bytes, row_at, form_row, form_count, long, code_at, ends_name, name_end};
ghost use Rattle.form.specs.Inside.PairKinds.{pair_kind};
ghost use Rattle.form.specs.Inside.Rows.{named, form_in, pair_of};

// How many forms there are; the length of a row; the first form's row and the first word's; the length of the table.
pub const FORMS: usize = 16;

pub const ROW: usize = 20;

pub const FIRST_FORM: usize = 6;

pub const FIRST_WORD: usize = 2;

pub const LONG: usize = ROW * (FIRST_FORM + FORMS);

// A text; a program; a configuration behind its bracket; the words of the configurations by kind; the forms. The codes from 128 on
// are below; zeros fill a row up.
const BYTES: [u8; LONG] = *b"\
    \x80\0\0\0\0\0\0\0\0\0\0\0\0\0\0\0\0\0\0\0\
    Jr.\x81\0\0\0\0\0\0\0\0\0\0\0\0\0\0\0\0\
    \x88 \x89\0\0\0\0\0\0\0\0\0\0\0\0\0\0\0\0\0\
    not \x86)\0\0\0\0\0\0\0\0\0\0\0\0\0\0\
    and \x86)\0\0\0\0\0\0\0\0\0\0\0\0\0\0\
    or \x86)\0\0\0\0\0\0\0\0\0\0\0\0\0\0\0\
    Nothing()\0\0\0\0\0\0\0\0\0\0\0\
    Stop()\0\0\0\0\0\0\0\0\0\0\0\0\0\0\
    Atom(\x8b)\0\0\0\0\0\0\0\0\0\0\0\0\0\
    Seq(\x80, \x80\x85\0\0\0\0\0\0\0\0\0\0\0\
    Par(\x80, \x80\x85\0\0\0\0\0\0\0\0\0\0\0\
    Loop(\x80)\0\0\0\0\0\0\0\0\0\0\0\0\0\
    Repeat(\x8b, \x80)\0\0\0\0\0\0\0\0\
    Generate(\x8a)\0\0\0\0\0\0\0\0\0\
    Await(\x86)\0\0\0\0\0\0\0\0\0\0\0\0\
    When(\x86, \x80, \x80)\0\0\0\0\0\0\0\
    Until(\x86, \x80, \x80)\0\0\0\0\0\0\
    Control(\x8a, \x80)\0\0\0\0\0\0\0\
    Local(\x8a, \x80)\0\0\0\0\0\0\0\0\0\
    Freezable(\x8a, \x80)\0\0\0\0\0\
    If(\x8c, \x80, \x80)\0\0\0\0\0\0\0\0\0\
    RepeatExt(\x8c, \x8d, \x80)\0\0";

// The codes from 128 on, bytes of the table among which those below 128 stand for themselves (so an enum would be made of each byte that is read,
// and taken apart again): a program, a form's name, behind a later part, a configuration, behind its bracket, behind its first part, an event,
// a number, the number of a value, a cap.
pub const PROGRAM: u8 = 128;

pub const NAME: u8 = 129;

pub const PARTS: u8 = 133;

pub const TEST: u8 = 134;

pub const INNER: u8 = 136;

pub const JOINT: u8 = 137;

pub const EVENT: u8 = 138;

pub const NUMBER: u8 = 139;

pub const VALUE: u8 = 140;

pub const CAP: u8 = 141;

// The table as readers and the printer are lent it.
#[derive(Clone, Copy)]
pub struct Names {
    bytes: [u8; LONG],
    ghost the_names: { TheNames bytes },
}

// The words between the two parts of a configuration.
#[derive(Clone, Copy)]
pub enum Pair {
    And,
    Or,
}

// A name ends with its bracket, a word with a space.
fn ends_name(x: u8) -> bool
    ensures { result ≡ ends_name x }
{
    (x == b'(') | (x == b' ')
}

// Which byte ends the name that begins a row.
fn last_of_name(row: &[u8]) -> Option<usize>
    ensures { result ≡ position ends_name row.now }
{
    row.iter().position(|x| ends_name(*x))
}

impl Names {
    // A copy of the table. Each mention of a constant array copies it, so a call asks for one copy and lends it down.
    pub fn new() -> Names {
        Names { bytes: BYTES }
    }

    // The code at a place; 0 behind the end, as behind a row's last code.
    pub fn code(&self, at: usize) -> u8
        ensures { result ≡ code_at at }
    {
        self.bytes.get(at).copied().unwrap_or(0)
    }

    // The bytes from a place to another.
    pub fn part(&self, begin: usize, end: usize) -> &[u8]
        requires rising { begin ≤ end }
        requires in_the_table { end ≤ long }
        ensures { result.now ≡ take (end - begin) (drop begin the_bytes) }
    {
        &self.bytes[begin..end]
    }

    // The bytes from a row on.
    fn from_row(&self, row: usize) -> &[u8]
        requires in_the_table { row ≤ form_row form_count }
        ensures { result.now ≡ drop (row_at row) the_bytes }
    {
        &self.bytes[ROW * row..]
    }

    // Whether a text begins with the name of a row.
    pub fn is_named(&self, row: usize, text: &[u8]) -> bool
        requires in_the_table { row ≤ form_row form_count }
        ensures { result ≡ named row text.now }
    {
        for (x, b) in self.from_row(row).iter().zip(text) {
            if b != x {
                return false;
            }
            if ends_name(*x) {
                return true;
            }
        }
        false
    }

    // The kind of the form whose name a text begins with.
    pub fn form_named(&self, text: &[u8]) -> Option<usize>
        ensures { MatchOption result (form_in text.now ≡ form_count) (λ k. (k ≡ form_in text.now) × (k < form_count)) }
    {
        for k in 0..FORMS {
            if self.is_named(FIRST_FORM + k, text) {
                return Some(k);
            }
        }
        None
    }

    // The word between two parts that a text begins with.
    pub fn pair_named(&self, text: &[u8]) -> Option<Pair>
        ensures { pair_kind result ≡ pair_of text.now }
    {
        if self.is_named(FIRST_WORD + 2, text) {
            return Some(Pair::And);
        }
        if self.is_named(FIRST_WORD + 3, text) {
            return Some(Pair::Or);
        }
        None
    }

    // Behind the name of a row.
    pub fn name_end(&self, row: usize) -> usize
        requires in_the_table { row ≤ form_row form_count }
        ensures { (result ≡ name_end row) × (result ≤ long) }
    {
        match last_of_name(self.from_row(row)) {
            Some(last) => ROW * row + last + 1,
            None => LONG,
        }
    }
}
