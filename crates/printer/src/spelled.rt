// Printing a node or a configuration where it stands in the table (01, "Written form"), with all below it.
ghost use Rattle.std.specs.Prelude.{◌≡◌, ◌<◌};
ghost use Rattle.table.specs.Records.{kind_at};
ghost use Rattle.form.specs.Names.{opening};
ghost use Rattle.form.specs.Spelling.{spell};
ghost use Rattle.form.specs.Inside.Rows.{form_count, form_row, name_end, inside};
ghost use Rattle.letters.specs.Rooms.{Puts};
ghost use Rattle.printer.specs.Outline.{outline};
ghost use Rattle.printer.specs.Printing.{Fits, argument, capped_text, linked, head, joint, Printable, Shows, Testable, ShowsTest};

use crate::room::{put, put_number};
use form::names::{CAP, EVENT, FIRST_FORM, Names, ROW, TEST};
use table::kinds::kind_of;
use table::records::{argument_at, kind_at, part_event, part_kind, part_size, second_at, word_at};

// Prints the program at node i.
pub fn put_program(table: &[u8], i: usize, room: &mut [u8], at: usize) -> usize
    requires { Printable spell table.now i at }
    ensures { Shows spell table.now i room.old room.new at result }
{
    let names = Names::new();
    put_node(&names, table, i, room, at)
}

// The same, with the table of names lent.
fn put_node(names: &Names, table: &[u8], i: usize, room: &mut [u8], at: usize) -> usize
    requires { Printable spell table.now i at }
    ensures { Shows spell table.now i room.old room.new at result }
{
    let begun = put_head(names, table, i, room, at);
    let count = kind_of(table, i).children();
    if count == 0 {
        return put(room, begun, b")");
    }
    let first = put_node(names, table, i + 1, room, begun);
    if count == 1 {
        return put(room, first, b")");
    }
    let between = put(room, first, b", ");
    let second = put_node(names, table, second_at(table, i), room, between);
    put(room, second, b")")
}

// Prints the program at node i, `..` for its parts.
pub fn put_outline(table: &[u8], i: usize, room: &mut [u8], at: usize) -> usize
    requires { Printable outline table.now i at }
    ensures { Shows outline table.now i room.old room.new at result }
{
    let names = Names::new();
    let begun = put_head(&names, table, i, room, at);
    if kind_of(table, i).children() == 0 {
        return put(room, begun, b")");
    }
    put(room, begun, b"..)")
}

// What its own record tells: the name, the argument, and what stands between the argument and a part.
fn put_head(names: &Names, table: &[u8], i: usize, room: &mut [u8], at: usize) -> usize
    requires { Printable head table.now i at }
    ensures { Shows head table.now i room.old room.new at result }
{
    let kind = kind_at(table, i);
    let inside = names.name_end(FIRST_FORM + kind);
    let first = names.code(inside);
    let named = put_opening(names, kind, inside, room, at);
    let argued = put_argument(table, i, first, names.code(inside + 3), room, named);
    put_link(room, argued, first, names.code(inside + 1))
}

// The name of the form of kind k with its bracket, which ends at a place of the table of names.
fn put_opening(names: &Names, k: usize, end: usize, room: &mut [u8], at: usize) -> usize
    requires known { k < form_count }
    requires name_ends { end ≡ name_end (form_row k) }
    requires fits { Fits at (opening k) }
    ensures { Puts room.old room.new at (opening k) result }
{
    let begun = put(room, at, b"Jr.");
    put(room, begun, names.part(ROW * (FIRST_FORM + k), end))
}

// The argument of node i: a test, a value's number and a cap, another number, or none, as the first code in its form's brackets tells and
// the one behind a number and a comma.
fn put_argument(table: &[u8], i: usize, code: u8, behind: u8, room: &mut [u8], at: usize) -> usize
    requires first_code { code ≡ inside (kind_at table.now i) 0 }
    requires behind_a_comma { behind ≡ inside (kind_at table.now i) 3 }
    requires printable { Printable argument table.now i at }
    ensures { Shows argument table.now i room.old room.new at result }
{
    if code == TEST {
        let n = word_at(table, table.len() - 10);
        return put_test(table, 6 * n + 4 * argument_at(table, i), room, at);
    }
    if behind == CAP {
        return put_capped(room, at, argument_at(table, i));
    }
    if EVENT <= code {
        return put_number(room, at, argument_at(table, i));
    }
    at
}

// The argument of a RepeatExt: the value's number first, the cap next.
fn put_capped(room: &mut [u8], at: usize, argument: usize) -> usize
    requires { Fits at (capped_text argument) }
    ensures { Puts room.old room.new at (capped_text argument) result }
{
    let first = put_number(room, at, argument % 16);
    let between = put(room, first, b", ");
    put_number(room, between, argument / 16)
}

// What stands between the argument and the first part, where a form has both, as the first two codes in its brackets tell.
fn put_link(room: &mut [u8], at: usize, code: u8, behind: u8) -> usize
    requires { Fits at (linked code behind) }
    ensures { Puts room.old room.new at (linked code behind) result }
{
    if (TEST <= code) & (behind == b',') {
        return put(room, at, b", ");
    }
    at
}

// Prints the configuration at byte c; its kind is the record's number, 0 an event, 1 a not, 2 an and, 3 an or: crate table has no names for them.
fn put_test(table: &[u8], c: usize, room: &mut [u8], at: usize) -> usize
    requires { Testable table.now c at }
    ensures { ShowsTest table.now c room.old room.new at result }
{
    let k = part_kind(table, c);
    if k == 0 {
        return put_number(room, at, part_event(table, c));
    }
    if k == 1 {
        let begun = put(room, at, b"(not ");
        let only = put_test(table, c + 4, room, begun);
        return put(room, only, b")");
    }
    let begun = put(room, at, b"(");
    let first = put_test(table, c + 4, room, begun);
    let between = put_joint(room, first, k);
    let second = put_test(table, c + 4 + 4 * part_size(table, c + 4), room, between);
    put(room, second, b")")
}

// The word of an and, kind 2, or of an or.
fn put_joint(room: &mut [u8], at: usize, k: usize) -> usize
    requires { Fits at (joint k) }
    ensures { Puts room.old room.new at (joint k) result }
{
    if k == 2 {
        return put(room, at, b" and ");
    }
    put(room, at, b" or ")
}
