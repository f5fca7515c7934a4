// The table of a text that is in the form: one loop from the last byte to the first, so that a record's parts are placed before it
// and its size is read off theirs.
ghost use Rattle.std.specs.Prelude.{◌≡◌, ◌+◌, ◌*◌, ◌%◌, ◌<◌, ◌≤◌, length, set, drop, eqb, ltb, cond, ◌||◌, ◌++◌};
ghost use Rattle.std.proofs.lemmas.List.Edits.{sets};
ghost use Rattle.table.specs.Records.{byte, word};
ghost use Rattle.form.specs.Made.{big};
ghost use Rattle.builder.specs.Building.{node_bytes, test_bytes, trailer_bytes, with_pair, with_node, with_test, number, joined_size};
ghost use Rattle.form.specs.Inside.Rows.{form_row, long, code_at, name_end, pair_of};
ghost use Rattle.builder.specs.Building.{joint, pair, negation, event, blank, opening, labelled, row, branches, choice, await};
ghost use Rattle.builder.specs.Building.{capped_number, capped, asking, single, form, name, comma, acting, place as placing, relevel as leveling};
ghost use Rattle.builder.specs.Building.{Idle, CanPlace, Places, LevelReady, Levels, Buildable, Builds};

use form::names::{CAP, FIRST_FORM, FIRST_WORD, Names, PARTS, PROGRAM, Pair, ROW, TEST, VALUE};
use form::{Sizes, digit_value, store};
use table::records::wide;

// Stands in the table as the kind of a node of which it is not known yet whether it is a Seq or a Par.
const UNKNOWN: u8 = 255;

// The first bytes of the nodes and of the configurations that are placed, the bytes where they end, and how many configurations are
// still to be placed. The table stands beside it: a callee may leave another slice in a field, and each contract would have to rule that out.
#[derive(Clone, Copy)]
pub struct Front {
    pub node: usize,
    pub middle: usize,
    pub part: usize,
    pub end: usize,
    pub left: usize,
}

// Builds the table of a text in the form that has these sizes.
pub fn build(text: &[u8], sizes: Sizes, table: &mut [u8])
    requires { Buildable text.now sizes (length table.old) }
    ensures { Builds text.now sizes (length table.old) table.new }
{
    let n = sizes.nodes;
    let m = sizes.tests;
    let names = Names::new();
    // A level is the byte that a configuration gets as its kind, so 2 for `and` and 3 for `or`; 1 once a comma is read, else 0.
    let mut levels = [0u8; 8192];
    let mut depth = 8192;
    let mut front = Front {
        node: 6 * n,
        middle: 6 * n,
        part: 6 * n + 4 * m,
        end: 6 * n + 4 * m,
        left: m,
    };
    let mut i = back_to_acting(text, text.len());
    // From one byte that acts to the next: one loop over all bytes took twice as long.
    while i > 0 {
        let b = text[i - 1];
        let level = byte_at(&levels, depth);
        front.place(&names, b, level, &text[i..], table);
        depth = relevel(&names, b, &text[i..], &mut levels, depth);
        i = back_to_acting(text, i - 1);
    }
    put_trailer(table, 6 * n + 4 * m, sizes);
}

// Back from a place over the bytes that do nothing: behind the first that can do something, or to the text's beginning.
fn back_to_acting(text: &[u8], from: usize) -> usize
    requires { from ≤ length text.now }
    ensures { Idle text.now result from }
{
    // A range: over `iter().enumerate().rev()` the loop's invariant would go by the iterator, which names no place.
    for i in (0..from).rev() {
        if acts(text[i]) {
            return i + 1;
        }
    }
    0
}

// Whether a byte can place something or change a level: brackets, comma and blank stand before all others of a text, but for `J`.
#[tactic(auto, unfolding(crate::specs::Building::acting))]
fn acts(b: u8) -> bool
    ensures { result ≡ acting b }
{
    (b < b'-') | (b == b'J')
}

// Byte i, or 0 behind the end.
fn byte_at(s: &[u8], i: usize) -> u8
    ensures { result ≡ byte s.now i }
{
    s.get(i).copied().unwrap_or(0)
}

// The text without its first n bytes.
fn behind(text: &[u8], n: usize) -> &[u8]
    ensures { result.now ≡ drop n text.now }
{
    &text[n.min(text.len())..]
}

// The number whose digits a text begins with; 0 if there are none, as a record of a form without a number has it.
fn number(text: &[u8]) -> usize
    ensures { result ≡ number 0 text.now }
{
    let mut v = 0;
    for b in text {
        let Some(d) = digit_value(*b) else {
            return v;
        };
        v = (10 * v + d) % 65536;
    }
    v
}

// How far behind the first digit of a value's number its cap begins.
fn behind_value(v: usize) -> usize
    ensures { result ≡ cond (ltb v 10) 3 4 }
{
    if v < 10 {
        return 3;
    }
    4
}

// The argument of a RepeatExt; the text begins with its two numbers.
#[tactic(auto, unfolding(crate::specs::Building::capped_number))]
fn capped_number(text: &[u8]) -> usize
    ensures { result ≡ capped_number text.now }
{
    let v = number(text);
    let cap = number(behind(text, behind_value(v)));
    cap % 256 * 16 + v % 16
}

// The number of 16 bits at byte i; bytes behind the end are 0, since it isn't known here that records stand in front.
fn word_in(s: &[u8], i: usize) -> usize
    requires { i < 1000000 }
    ensures { (result ≡ word s.now i) × (result < 65536) }
{
    wide(byte_at(s, i)) * 256 + wide(byte_at(s, i + 1))
}

// The size of a record in front of two others, by the sizes written in them.
fn joined_size(records: &[u8], long: usize, at: usize) -> usize
    requires record_long { long ≤ 6 }
    requires in_the_record { at ≤ 4 }
    ensures { result ≡ joined_size long at records.now }
{
    let first = word_in(records, at);
    1 + first + word_in(records, long * first + at)
}

// Whether a program stands in a form's brackets, alone or behind a number; they begin at a place of the table of names.
fn has_part(names: &Names, end: usize) -> bool
    requires in_the_table { end ≤ long }
    ensures { result ≡ (eqb (code_at end) 128 || eqb (code_at (end + 3)) 128) }
{
    (names.code(end) == PROGRAM) | (names.code(end + 3) == PROGRAM)
}

// The size of a node without parts or with one in front.
fn own_size(nodes: &[u8], part: bool) -> usize
    ensures { result ≡ cond part (1 + word nodes.now 4) 1 }
{
    if part {
        return 1 + word_in(nodes, 4);
    }
    1
}

// The low 16 bits of x at byte i.
fn put_word(s: &mut [u8], i: usize, x: usize)
    requires { i + 1 < length s.old }
    ensures { s.new ≡ sets s.old i (big (x % 65536)) }
{
    let [high, low] = ((x % 65536) as u16).to_be_bytes();
    s[i] = high;
    s[i + 1] = low;
}

// A node's record.
fn put_node(table: &mut [u8], at: usize, kind: u8, argument: usize, size: usize)
    requires { at + 5 < length table.old }
    ensures { table.new ≡ sets table.old at (node_bytes kind argument size) }
{
    table[at] = kind;
    table[at + 1] = 0;
    put_word(table, at + 2, argument);
    put_word(table, at + 4, size);
}

// A configuration's record. Its kind is the record's first byte: the kinds of configurations have no names in crate table.
fn put_test(table: &mut [u8], at: usize, kind: u8, s: usize, size: usize)
    requires { at + 3 < length table.old }
    ensures { table.new ≡ sets table.old at (test_bytes kind s size) }
{
    table[at] = kind;
    table[at + 1] = (s % 256) as u8;
    put_word(table, at + 2, size);
}

// The trailer: N, M, V and the distances.
fn put_trailer(table: &mut [u8], at: usize, sizes: Sizes)
    requires in_the_table { at + 9 < length table.old }
    requires size_bound { 6 * sizes.nodes + 4 * sizes.tests < 65536 }
    ensures { table.new ≡ sets table.old at (trailer_bytes sizes.nodes sizes.tests sizes.events) }
{
    let n = sizes.nodes;
    let m = sizes.tests;
    put_word(table, at, n);
    put_word(table, at + 2, m);
    put_word(table, at + 4, sizes.events);
    put_word(table, at + 6, 6 * n + 4 * m);
    put_word(table, at + 8, 4 * m);
}

// The first node, and those that follow it as second children, get their kind, as long as they have none. The loop goes by the sizes that are
// written in them.
fn spread(nodes: &mut [u8], kind: u8)
    requires { length nodes.old ≤ 32778 }
    ensures { nodes.new ≡ labelled kind nodes.old }
{
    let mut at = 0;
    while at < nodes.len() {
        if nodes[at] == UNKNOWN {
            let first = word_in(nodes, at + 10);
            nodes[at] = kind;
            at = at + 6 + 6 * first;
        } else {
            return;
        }
    }
}

// The same for a When, an Until or an If, and the first node's argument.
fn label(nodes: &mut [u8], kind: u8, argument: usize)
    requires { length nodes.old ≤ 32778 }
    ensures { nodes.new ≡ sets (labelled kind nodes.old) 2 (big (argument % 65536)) }
{
    spread(nodes, kind);
    let [high, low] = ((argument % 65536) as u16).to_be_bytes();
    store(nodes, 2, high);
    store(nodes, 3, low);
}

impl Front {
    // A node in front of those that are placed.
    fn place_node(&mut self, table: &mut [u8], kind: u8, argument: usize, size: usize)
        requires { CanPlace (with_node kind argument size) table.old self.old }
        ensures { Places (with_node kind argument size) table.old self.old table.new self.new }
    {
        self.node -= 6;
        put_node(table, self.node, kind, argument, size);
    }

    // A configuration in front of those that are placed.
    fn place_test(&mut self, table: &mut [u8], kind: u8, e: usize, size: usize)
        requires { CanPlace (with_test kind e size) table.old self.old }
        ensures { Places (with_test kind e size) table.old self.old table.new self.new }
    {
        self.part -= 4;
        self.left -= 1;
        put_test(table, self.part, kind, e, size);
    }

    // An event, if the text begins with its number.
    fn place_event(&mut self, text: &[u8], table: &mut [u8])
        requires { CanPlace (event text.now) table.old self.old }
        ensures { Places (event text.now) table.old self.old table.new self.new }
    {
        if byte_at(text, 0).is_ascii_digit() {
            let e = number(text);
            self.place_test(table, (16 * (e / 256 % 16)) as u8, e, 1);
        }
    }

    // A node over the two in front.
    fn place_joint(&mut self, table: &mut [u8])
        requires { CanPlace joint table.old self.old }
        ensures { Places joint table.old self.old table.new self.new }
    {
        let size = joined_size(&table[self.node..self.middle], 6, 4);
        self.place_node(table, UNKNOWN, 0, size);
    }

    // An `and` or an `or` over the two in front.
    fn place_pair(&mut self, kind: u8, table: &mut [u8])
        requires { CanPlace (pair kind) table.old self.old }
        ensures { Places (pair kind) table.old self.old table.new self.new }
    {
        let size = joined_size(&table[self.part..self.end], 4, 2);
        self.place_test(table, kind, 0, size);
    }

    // A `not` over the one in front.
    fn place_not(&mut self, table: &mut [u8])
        requires { CanPlace negation table.old self.old }
        ensures { Places negation table.old self.old table.new self.new }
    {
        let size = 1 + word_in(&table[self.part..self.end], 2);
        self.place_test(table, 1, 0, size);
    }

    // `(` before this text.
    fn place_opening(&mut self, names: &Names, level: u8, text: &[u8], table: &mut [u8])
        requires { CanPlace (opening level text.now) table.old self.old }
        ensures { Places (opening level text.now) table.old self.old table.new self.new }
    {
        if 1 < level {
            self.place_event(text, table);
            self.place_pair(level, table);
        } else if names.is_named(FIRST_WORD + 1, text) {
            self.place_not(table);
        }
    }

    // A Seq or a Par.
    fn place_row(&mut self, kind: u8, table: &mut [u8])
        requires { CanPlace (row kind) table.old self.old }
        ensures { Places (row kind) table.old self.old table.new self.new }
    {
        self.place_joint(table);
        spread(&mut table[self.node..self.middle], kind);
    }

    // A When, an Until or an If whose node is in front.
    fn place_branches(&mut self, kind: u8, argument: usize, table: &mut [u8])
        requires { CanPlace (branches kind argument) table.old self.old }
        ensures { Places (branches kind argument) table.old self.old table.new self.new }
    {
        label(&mut table[self.node..self.middle], kind, argument);
    }

    // A When or an Until whose node is in front; the text is that of its test.
    fn place_choice(&mut self, kind: u8, text: &[u8], table: &mut [u8])
        requires { CanPlace (choice kind text.now) table.old self.old }
        ensures { Places (choice kind text.now) table.old self.old table.new self.new }
    {
        self.place_event(text, table);
        self.place_branches(kind, self.left, table);
    }

    // An Await; the text is that of its test.
    fn place_await(&mut self, kind: u8, text: &[u8], table: &mut [u8])
        requires { CanPlace (await kind text.now) table.old self.old }
        ensures { Places (await kind text.now) table.old self.old table.new self.new }
    {
        self.place_event(text, table);
        self.place_node(table, kind, self.left, 1);
    }

    // A RepeatExt; the text begins with its two numbers.
    fn place_capped(&mut self, kind: u8, text: &[u8], table: &mut [u8])
        requires { CanPlace (capped kind text.now) table.old self.old }
        ensures { Places (capped kind text.now) table.old self.old table.new self.new }
    {
        let size = own_size(&table[self.node..self.middle], true);
        let argument = capped_number(text);
        self.place_node(table, kind, argument, size);
    }

    // A form in whose brackets a value's number comes first, as the text does, by the code behind it in the table of names.
    fn place_asking(&mut self, behind: u8, kind: u8, text: &[u8], table: &mut [u8])
        requires { CanPlace (asking behind kind text.now) table.old self.old }
        ensures { Places (asking behind kind text.now) table.old self.old table.new self.new }
    {
        if behind == CAP {
            self.place_capped(kind, text, table);
        } else {
            self.place_branches(kind, number(text), table);
        }
    }

    // Any other form; the text begins with its number if it has one.
    fn place_single(&mut self, names: &Names, kind: u8, end: usize, text: &[u8], table: &mut [u8])
        requires name_ends { (end ≡ name_end (form_row kind)) × (end ≤ long) }
        requires can_place { CanPlace (single kind text.now) table.old self.old }
        ensures { Places (single kind text.now) table.old self.old table.new self.new }
    {
        let part = has_part(names, end);
        let size = own_size(&table[self.node..self.middle], part);
        let argument = number(text);
        self.place_node(table, kind, argument, size);
    }

    // The form of this kind, whose name ends at a place of the table of names; the text is that inside its bracket.
    fn place_form(&mut self, names: &Names, kind: u8, end: usize, text: &[u8], table: &mut [u8])
        requires name_ends { (end ≡ name_end (form_row kind)) × (end ≤ long) }
        requires can_place { CanPlace (form kind text.now) table.old self.old }
        ensures { Places (form kind text.now) table.old self.old table.new self.new }
    {
        if names.code(end + 4) == PARTS {
            self.place_row(kind, table);
        } else if names.code(end) == TEST {
            if names.code(end + 1) == b',' {
                self.place_choice(kind, text, table);
            } else {
                self.place_await(kind, text, table);
            }
        } else if names.code(end) == VALUE {
            self.place_asking(names.code(end + 3), kind, text, table);
        } else {
            self.place_single(names, kind, end, text, table);
        }
    }

    // `J` before this text.
    fn place_name(&mut self, names: &Names, text: &[u8], table: &mut [u8])
        requires { CanPlace (name text.now) table.old self.old }
        ensures { Places (name text.now) table.old self.old table.new self.new }
    {
        let Some(kind) = names.form_named(behind(text, 2)) else {
            return;
        };
        let row = FIRST_FORM + kind;
        let end = names.name_end(row);
        let inside = behind(text, 2 + (end - ROW * row));
        self.place_form(names, kind as u8, end, inside, table);
    }

    // `,` at this level, before this text: a program behind it, or a cap.
    fn place_comma(&mut self, level: u8, text: &[u8], table: &mut [u8])
        requires { CanPlace (comma level text.now) table.old self.old }
        ensures { Places (comma level text.now) table.old self.old table.new self.new }
    {
        if (level == 1) & (byte_at(text, 1) == b'J') {
            self.place_joint(table);
        }
    }

    // A blank at this level, before this text: an event, or where a comma is read a cap.
    fn place_blank(&mut self, level: u8, text: &[u8], table: &mut [u8])
        requires { CanPlace (blank level text.now) table.old self.old }
        ensures { Places (blank level text.now) table.old self.old table.new self.new }
    {
        if level != 1 {
            self.place_event(text, table);
        }
    }

    // What byte b places at this level, before this text.
    fn place(&mut self, names: &Names, b: u8, level: u8, text: &[u8], table: &mut [u8])
        requires { CanPlace (placing b level text.now) table.old self.old }
        ensures { Places (placing b level text.now) table.old self.old table.new self.new }
    {
        match b {
            b' ' => self.place_blank(level, text, table),
            b'(' => self.place_opening(names, level, text, table),
            b',' => self.place_comma(level, text, table),
            b'J' => self.place_name(names, text, table),
            _ => {}
        }
    }
}

// A blank before this text.
fn name_level(names: &Names, text: &[u8], levels: &mut [u8], depth: usize)
    ensures { levels.new ≡ with_pair text.now levels.old depth }
{
    match names.pair_named(text) {
        Some(Pair::And) => store(levels, depth, 2),
        Some(Pair::Or) => store(levels, depth, 3),
        None => {}
    }
}

// The level around that in front.
fn outer(levels: &[u8], depth: usize) -> usize
    requires { depth ≤ length levels.now }
    ensures { (result ≤ length levels.now) × (drop result levels.now ≡ drop 1 (drop depth levels.now)) }
{
    if depth < levels.len() {
        return depth + 1;
    }
    depth
}

// The levels before byte b, which this text follows.
fn relevel(names: &Names, b: u8, text: &[u8], levels: &mut [u8], depth: usize) -> usize
    requires { LevelReady (leveling b text.now) levels.old depth }
    ensures { Levels (leveling b text.now) levels.old depth levels.new result }
{
    match b {
        b' ' => {
            name_level(names, text, levels, depth);
            depth
        }
        b'(' => outer(levels, depth),
        b')' => {
            let inner = depth - 1;
            levels[inner] = 0;
            inner
        }
        b',' => {
            store(levels, depth, 1);
            depth
        }
        _ => depth,
    }
}
