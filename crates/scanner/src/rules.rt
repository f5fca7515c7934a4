// What each place in the table of names makes of a text's next byte.
ghost use Rattle.std.specs.Prelude.{◌+◌, ◌-◌, ◌%◌, ◌<◌, ◌≤◌, ◌&&◌, ◌≡◌, MatchOption, None, eqb};
ghost use Rattle.std.specs.Option.{ForSome};
ghost use Rattle.form.specs.Inside.Rows.{row_at, form_row, form_count, long, code_at, agree, place_from};
ghost use Rattle.form.specs.Inside.Machine.{limit, sort_of};
ghost use Rattle.scanner.specs.Turns.{other_turn, literal_turn, digit_turn, test_turn, inner_turn, parts_turn, joint_turn, program_turn};
ghost use Rattle.scanner.specs.Turns.{symbol_turn, number_turn, turn_of};

use events::EventSet;
use form::digit_value;
use form::names::{
    EVENT, FIRST_FORM, FIRST_WORD, FORMS, INNER, NAME, NUMBER, Names, PARTS, PROGRAM, ROW, TEST,
    VALUE,
};

// Where the first form's name begins; and where the table goes on behind the J of a program, the bracket of a configuration, the n of a
// `not`, the a of an `and`, the o of an `or`, and the comma before a later part.
const FIRST_NAME: usize = ROW * FIRST_FORM;

const BEHIND_J: usize = ROW + 1;

const BEHIND_BRACKET: usize = ROW * FIRST_WORD;

const BEHIND_N: usize = ROW * (FIRST_WORD + 1) + 1;

const BEHIND_A: usize = ROW * (FIRST_WORD + 2) + 1;

const BEHIND_O: usize = ROW * (FIRST_WORD + 3) + 1;

const BEHIND_COMMA: usize = ROW * (FIRST_FORM + 3) + 6;

// The largest number of an event, of a value, of a cap, and of anything else.
const LARGEST_EVENT: usize = EventSet::PLACES - 1;

const LARGEST_VALUE: usize = 15;

const LARGEST_CAP: usize = 255;

const LARGEST: usize = 65535;

// What a byte does at a place: on at the same level, the value of a number so far being that, if it is in one; a name's bracket; into a rule,
// with the rest of this one left behind; out of a bracket.
#[derive(Clone, Copy)]
pub enum Turn {
    On(usize, Option<usize>),
    Opens(usize),
    Into(usize),
    Out,
}

// The code before a place.
pub fn code_before(names: &Names, pc: usize) -> u8
    ensures { result ≡ code_at (pc - 1) }
{
    names.code(pc.saturating_sub(1))
}

// Whether so many codes from two places on are the same.
fn same_codes(names: &Names, a: usize, c: usize, n: usize) -> bool
    requires in_the_table { (a + n ≤ long) × (c + n ≤ long) }
    ensures { result ≡ agree n a c }
{
    names.part(a, a + n) == names.part(c, c + n)
}

// Whether a row begins with the letters before a place, and has b behind them.
fn goes_on(names: &Names, row: usize, pc: usize, b: u8) -> bool
    requires in_the_table { (row < form_row form_count) × (pc < long) }
    ensures { result ≡ (eqb b (code_at (row_at row + pc % 20)) && agree (pc % 20) (pc - pc % 20) (row_at row)) }
{
    let column = pc % ROW;
    if b == names.code(ROW * row + column) {
        return same_codes(names, pc - column, ROW * row, column);
    }
    false
}

// The place in a form's name that has b behind the letters before a place.
fn other_place(names: &Names, pc: usize, b: u8) -> Option<usize>
    requires in_the_table { pc < long }
    ensures { MatchOption result (place_from form_count (form_row 0) pc b ≡ 0) (λ q. (q ≡ place_from form_count (form_row 0) pc b) × (0 < q) × (q < long)) }
{
    for row in FIRST_FORM..FIRST_FORM + FORMS {
        if goes_on(names, row, pc, b) {
            return Some(ROW * row + pc % ROW);
        }
    }
    None
}

// Behind the same letters in another form's name.
#[tactic(auto, unfolding(crate::specs::Turns::other_turn))]
fn other(names: &Names, pc: usize, b: u8) -> Option<Turn>
    requires in_the_table { pc < long }
    ensures { result ≡ other_turn pc b }
{
    if pc < FIRST_NAME {
        return None;
    }
    match other_place(names, pc, b) {
        None => None,
        Some(at) if b == b'(' => Some(Turn::Opens(at + 1)),
        Some(at) => Some(Turn::On(at + 1, None)),
    }
}

// At a byte that is to be read as it is.
#[tactic(auto, unfolding(crate::specs::Turns::literal_turn))]
fn literal(names: &Names, pc: usize, b: u8) -> Option<Turn>
    ensures { result ≡ literal_turn pc b }
{
    let x = names.code(pc);
    if x == 0 {
        return None;
    }
    if b == x {
        return Some(match b {
            b'(' => Turn::Opens(pc + 1),
            b')' => Turn::Out,
            _ => Turn::On(pc + 1, None),
        });
    }
    other(names, pc, b)
}

// At a number.
#[tactic(auto, unfolding(crate::specs::Turns::digit_turn))]
fn digit(pc: usize, b: u8) -> Option<Turn>
    requires in_the_table { pc < long }
    ensures { result ≡ digit_turn pc b }
{
    match digit_value(b) {
        Some(d) => Some(Turn::On(pc + 1, Some(d))),
        None => None,
    }
}

#[tactic(auto, unfolding(crate::specs::Turns::test_turn))]
fn test(pc: usize, b: u8) -> Option<Turn>
    requires in_the_table { pc < long }
    ensures { result ≡ test_turn pc b }
{
    if b == b'(' {
        return Some(Turn::Into(BEHIND_BRACKET));
    }
    digit(pc, b)
}

#[tactic(auto, unfolding(crate::specs::Turns::inner_turn))]
fn inner(pc: usize, b: u8) -> Option<Turn>
    requires in_the_table { pc < long }
    ensures { result ≡ inner_turn pc b }
{
    if b == b'n' {
        return Some(Turn::On(BEHIND_N, None));
    }
    test(pc, b)
}

#[tactic(auto, unfolding(crate::specs::Turns::parts_turn))]
fn parts(b: u8) -> Option<Turn>
    ensures { result ≡ parts_turn b }
{
    match b {
        b')' => Some(Turn::Out),
        b',' => Some(Turn::On(BEHIND_COMMA, None)),
        _ => None,
    }
}

#[tactic(auto, unfolding(crate::specs::Turns::joint_turn))]
fn joint(names: &Names, b: u8) -> Option<Turn>
    ensures { result ≡ joint_turn b }
{
    if b == names.code(BEHIND_A - 1) {
        return Some(Turn::On(BEHIND_A, None));
    }
    if b == names.code(BEHIND_O - 1) {
        return Some(Turn::On(BEHIND_O, None));
    }
    None
}

#[tactic(auto, unfolding(crate::specs::Turns::program_turn))]
fn program(b: u8) -> Option<Turn>
    ensures { result ≡ program_turn b }
{
    if b == b'J' {
        return Some(Turn::Into(BEHIND_J));
    }
    None
}

#[tactic(auto, unfolding(crate::specs::Turns::symbol_turn))]
fn symbol(names: &Names, x: u8, pc: usize, b: u8) -> Option<Turn>
    requires in_the_table { pc < long }
    ensures { result ≡ symbol_turn x pc b }
{
    match x {
        PROGRAM => program(b),
        PARTS => parts(b),
        TEST => test(pc, b),
        INNER => inner(pc, b),
        NAME => literal(names, FIRST_NAME, b),
        _ => {
            if x < EVENT {
                return joint(names, b);
            }
            digit(pc, b)
        }
    }
}

// The largest number that may end at this place.
fn limit_at(names: &Names, pc: usize) -> usize
    ensures { result ≡ limit (sort_of (code_at (pc - 1))) }
{
    let x = code_before(names, pc);
    if x < NUMBER {
        return LARGEST_EVENT;
    }
    match x {
        NUMBER => LARGEST,
        VALUE => LARGEST_VALUE,
        _ => LARGEST_CAP,
    }
}

// Within a number whose end byte is at this place.
#[tactic(auto, unfolding(crate::specs::Turns::number_turn))]
fn number(names: &Names, pc: usize, value: usize, b: u8) -> Option<Turn>
    requires low { value ≤ 65535 }
    ensures { result ≡ number_turn pc value b }
{
    let Some(d) = digit_value(b) else {
        return literal(names, pc, b);
    };
    if value == 0 {
        return None;
    }
    let grown = 10 * value + d;
    if limit_at(names, pc) < grown {
        return None;
    }
    Some(Turn::On(pc, Some(grown)))
}

// In no number.
#[tactic(auto, unfolding(crate::specs::Turns::turn_of))]
fn rule(names: &Names, pc: usize, b: u8) -> Option<Turn>
    ensures { result ≡ turn_of pc None b }
{
    let x = names.code(pc);
    if x < PROGRAM {
        return literal(names, pc, b);
    }
    symbol(names, x, pc, b)
}

// What the byte b does at a place, within a number of that value so far or in none.
#[tactic(auto, unfolding(crate::specs::Turns::turn_of))]
pub fn turn_at(names: &Names, pc: usize, value: Option<usize>, b: u8) -> Option<Turn>
    requires low { ForSome value (λ v. v ≤ 65535) }
    ensures { result ≡ turn_of pc value b }
{
    match value {
        Some(v) => number(names, pc, v, b),
        None => rule(names, pc, b),
    }
}
