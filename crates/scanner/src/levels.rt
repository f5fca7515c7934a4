// The bracket that a place in a text stands in, and what is to come behind the bracket inside it.
ghost use Rattle.std.specs.Prelude.{◌-◌, ◌<◌, ◌≤◌, ◌&&◌, ◌≡◌, eqb, length};
ghost use Rattle.form.specs.Inside.Rows.{long, code_at};
ghost use Rattle.scanner.specs.Levels.{is_open, nested, spaced, around, level_in, level_of, level_at, by_spaces, rest_of};
ghost use Rattle.scanner.specs.Levels.{outer_at, rest_at};

use form::names::{FIRST_FORM, FIRST_WORD, FORMS, Names, PARTS, PROGRAM, ROW};

// An open bracket's place, and the spaces behind it that stand in no bracket of their own. Place 0 stands for none: a text of the form
// begins with a letter.
#[derive(Clone, Copy)]
pub struct Bracket {
    pub at: usize,
    pub spaces: usize,
}

// The level that is left: its bracket's place, and where its rule goes on.
#[derive(Clone, Copy)]
pub struct Frame {
    pub bracket: usize,
    pub rest: usize,
}

#[tactic(auto, unfolding(crate::specs::Levels::is_open))]
fn opens(b: u8, closed: usize) -> bool
    ensures { result ≡ is_open b closed }
{
    (b == b'(') & (closed == 0)
}

#[tactic(auto, unfolding(crate::specs::Levels::nested))]
fn nested(b: u8, closed: usize) -> usize
    requires { closed < 18446744073709551615 }
    ensures { result ≡ nested b closed }
{
    match b {
        b')' => closed + 1,
        b'(' => closed.saturating_sub(1),
        _ => closed,
    }
}

#[tactic(auto, unfolding(crate::specs::Levels::spaced))]
fn spaced(b: u8, closed: usize, spaces: usize) -> usize
    requires { spaces < 18446744073709551615 }
    ensures { result ≡ spaced b closed spaces }
{
    if (b == b' ') & (closed == 0) {
        return spaces + 1;
    }
    spaces
}

// The innermost bracket that is open before a place.
pub fn around(text: &[u8], from: usize) -> Bracket
    requires { from ≤ length text.now }
    ensures { result ≡ around text.now from }
{
    let mut closed: usize = 0;
    let mut spaces: usize = 0;
    // A range: over `text[..from].iter().enumerate().rev()` the loop's invariant would go by the iterator, which names no place.
    for at in (0..from).rev() {
        let b = text[at];
        if opens(b, closed) {
            return Bracket { at, spaces };
        }
        spaces = spaced(b, closed, spaces);
        closed = nested(b, closed);
    }
    Bracket { at: 0, spaces }
}

// What stands in a bracket: all of the text; parts; a configuration and two programs; a configuration's own
// parts; anything else.
#[derive(Clone, Copy)]
pub enum Level {
    Top,
    Several,
    Branches,
    Test,
    One,
}

// The level in a form's brackets, which begin at a place of the table of names.
#[tactic(auto, unfolding(crate::specs::Levels::level_in))]
fn level_in(names: &Names, end: usize) -> Level
    requires in_the_table { end ≤ long }
    ensures { result ≡ level_in end }
{
    if names.code(end + 4) == PARTS {
        return Level::Several;
    }
    if names.code(end + 6) == PROGRAM {
        return Level::Branches;
    }
    Level::One
}

// Whether a form's name ends with these two letters; its bracket ends at a place of the table of names.
fn ends_so(names: &Names, end: usize, before: u8, last: u8) -> bool
    requires behind_a_name { 3 ≤ end }
    ensures { result ≡ (eqb last (code_at (end - 2)) && eqb before (code_at (end - 3))) }
{
    (last == names.code(end - 2)) & (before == names.code(end - 3))
}

// The level of a bracket behind these two bytes.
fn level_behind(names: &Names, before: u8, last: u8) -> Level
    ensures { result ≡ level_of before last }
{
    if last < b'a' {
        return Level::Test;
    }
    for k in 0..FORMS {
        let end = names.name_end(FIRST_FORM + k);
        if ends_so(names, end, before, last) {
            return level_in(names, end);
        }
    }
    Level::One
}

// The level of a bracket in a text. Place 0 stands for none: there no bracket of the form can be.
#[tactic(auto, unfolding(crate::specs::Levels::level_at))]
fn level_at(names: &Names, text: &[u8], bracket: usize) -> Level
    requires in_the_text { bracket ≤ length text.now }
    ensures { result ≡ level_at text.now bracket }
{
    if bracket == 0 {
        return Level::Top;
    }
    level_behind(names, text[bracket.saturating_sub(2)], text[bracket - 1])
}

fn by_spaces(none: usize, one: usize, more: usize, spaces: usize) -> usize
    ensures { result ≡ by_spaces none one more spaces }
{
    match spaces {
        0 => none,
        1 => one,
        _ => more,
    }
}

// Where the rules go on behind a part of a Seq or Par, its first or a later one; behind the test and the first branch of a When or Until;
// behind the first part of a configuration; and behind any other part, before the closing bracket.
const FIRST_PART: usize = ROW * (FIRST_FORM + 3) + 5;

const LATER_PART: usize = ROW * (FIRST_FORM + 3) + 8;

const BRANCH_TEST: usize = ROW * (FIRST_FORM + 9) + 6;

const FIRST_BRANCH: usize = ROW * (FIRST_FORM + 9) + 9;

const FIRST_TEST: usize = ROW * FIRST_WORD + 1;

const LAST_PART: usize = ROW * (FIRST_FORM + 9) + 12;

// Where a level's rule goes on behind a bracket in it, by the spaces before that.
#[tactic(auto, unfolding(crate::specs::Levels::rest_of))]
fn rest(level: Level, spaces: usize) -> usize
    ensures { result ≡ rest_of level spaces }
{
    match level {
        Level::Top => 1,
        Level::Several => by_spaces(FIRST_PART, LATER_PART, LATER_PART, spaces),
        Level::Branches => by_spaces(BRANCH_TEST, FIRST_BRANCH, LAST_PART, spaces),
        Level::Test => by_spaces(FIRST_TEST, LAST_PART, LAST_PART, spaces),
        Level::One => LAST_PART,
    }
}

// The level round a bracket, as the text tells it.
pub fn outer(names: &Names, text: &[u8], bracket: usize) -> Frame
    requires in_the_text { bracket ≤ length text.now }
    ensures { (result.bracket ≡ outer_at text.now bracket) × (result.rest ≡ rest_at text.now bracket) }
{
    let round = around(text, bracket);
    let open_at = round.at;
    Frame {
        bracket: open_at,
        rest: rest(level_at(names, text, open_at), round.spaces),
    }
}
