// The edges of refusals 1 to 8: each line is a point's name, then number, index, G, A, W and F of a table that stands on it.
#![tactic(auto)]

use console::{print_decimal, write_out};
use std::io::Write;
use table::numbers::Numbered;

fn main(rt: HostRuntime) {
    let mut out = rt.stdout();
    for (point, bytes) in EDGES {
        show(&mut out, point, bytes);
    }
}

// Each point's name, and the bytes of a table that stands on it.
const EDGES: [(&[u8], &[u8]); 31] = [
    // Record 0 of the configurations is free to have any size that its parts give.
    // two lone events: record 0 needn't span both
    (
        b"A1",
        b"\x00\x00\x00\x00\x00\x01\
        \x00\x00\x00\x01\
        \x00\x00\x00\x01\
        \x00\x01\x00\x02\x00\x01\x00\x0e\x00\x08",
    ),
    // an event's size is 1 plus nothing, in record 0 too
    (
        b"A1",
        b"\x00\x00\x00\x00\x00\x01\
        \x00\x00\x00\x02\
        \x00\x00\x00\x01\
        \x00\x01\x00\x02\x00\x01\x00\x0e\x00\x08",
    ),

    // Heights of configurations.
    // 15 nots over an event are 16 high
    (
        b"A2",
        b"\x00\x00\x00\x00\x00\x01\
        \x01\x00\x00\x10\
        \x01\x00\x00\x0f\
        \x01\x00\x00\x0e\
        \x01\x00\x00\x0d\
        \x01\x00\x00\x0c\
        \x01\x00\x00\x0b\
        \x01\x00\x00\x0a\
        \x01\x00\x00\x09\
        \x01\x00\x00\x08\
        \x01\x00\x00\x07\
        \x01\x00\x00\x06\
        \x01\x00\x00\x05\
        \x01\x00\x00\x04\
        \x01\x00\x00\x03\
        \x01\x00\x00\x02\
        \x00\x00\x00\x01\
        \x00\x01\x00\x10\x00\x01\x00\x46\x00\x40",
    ),
    // 16 nots over an event are 17 high; the topmost is the lowest index
    (
        b"A2",
        b"\x00\x00\x00\x00\x00\x01\
        \x01\x00\x00\x11\
        \x01\x00\x00\x10\
        \x01\x00\x00\x0f\
        \x01\x00\x00\x0e\
        \x01\x00\x00\x0d\
        \x01\x00\x00\x0c\
        \x01\x00\x00\x0b\
        \x01\x00\x00\x0a\
        \x01\x00\x00\x09\
        \x01\x00\x00\x08\
        \x01\x00\x00\x07\
        \x01\x00\x00\x06\
        \x01\x00\x00\x05\
        \x01\x00\x00\x04\
        \x01\x00\x00\x03\
        \x01\x00\x00\x02\
        \x00\x00\x00\x01\
        \x00\x01\x00\x11\x00\x01\x00\x4a\x00\x44",
    ),
    // 16 nots over a record of kind 4, which counts 1: record 0 is 17 high
    (
        b"A2",
        b"\x00\x00\x00\x00\x00\x01\
        \x01\x00\x00\x11\
        \x01\x00\x00\x10\
        \x01\x00\x00\x0f\
        \x01\x00\x00\x0e\
        \x01\x00\x00\x0d\
        \x01\x00\x00\x0c\
        \x01\x00\x00\x0b\
        \x01\x00\x00\x0a\
        \x01\x00\x00\x09\
        \x01\x00\x00\x08\
        \x01\x00\x00\x07\
        \x01\x00\x00\x06\
        \x01\x00\x00\x05\
        \x01\x00\x00\x04\
        \x01\x00\x00\x03\
        \x01\x00\x00\x02\
        \x04\x00\x00\x01\
        \x00\x01\x00\x11\x00\x01\x00\x4a\x00\x44",
    ),
    // 15 nots over it are 16 high, so only record 15 is bad
    (
        b"A2",
        b"\x00\x00\x00\x00\x00\x01\
        \x01\x00\x00\x10\
        \x01\x00\x00\x0f\
        \x01\x00\x00\x0e\
        \x01\x00\x00\x0d\
        \x01\x00\x00\x0c\
        \x01\x00\x00\x0b\
        \x01\x00\x00\x0a\
        \x01\x00\x00\x09\
        \x01\x00\x00\x08\
        \x01\x00\x00\x07\
        \x01\x00\x00\x06\
        \x01\x00\x00\x05\
        \x01\x00\x00\x04\
        \x01\x00\x00\x03\
        \x01\x00\x00\x02\
        \x04\x00\x00\x01\
        \x00\x01\x00\x10\x00\x01\x00\x46\x00\x40",
    ),

    // The second child stands where the first's written size says.
    // record 1's second child is record 4, and 1 + 2 + 65,535 isn't 2
    (
        b"A3",
        b"\x03\x00\x00\x00\x00\x05\
        \x03\x00\x00\x00\x00\x02\
        \x00\x00\x00\x00\x00\x02\
        \x00\x00\x00\x00\x00\x02\
        \x00\x00\x00\x00\xff\xff\
        \x00\x05\x00\x00\x00\x01\x00\x1e\x00\x00",
    ),
    // a written size 0 makes record 1 both parts of the and, whose size 1 is then right; record 1 is bad itself
    (
        b"A3",
        b"\x00\x00\x00\x00\x00\x01\
        \x02\x00\x00\x01\
        \x00\x00\x00\x00\
        \x00\x01\x00\x02\x00\x01\x00\x0e\x00\x08",
    ),

    // A record is judged by its children's written sizes alone.
    // a Loop of size 3 over a Stop of size 2: only the Stop is bad
    (
        b"A4",
        b"\x05\x00\x00\x00\x00\x03\
        \x01\x00\x00\x00\x00\x02\
        \x00\x00\x00\x00\x00\x01\
        \x00\x03\x00\x00\x00\x01\x00\x12\x00\x00",
    ),

    // A test may name a part of another configuration.
    // an Await of configuration 1, which is the part of configuration 0
    (
        b"A5",
        b"\x08\x00\x00\x01\x00\x01\
        \x01\x00\x00\x02\
        \x00\x00\x00\x01\
        \x00\x01\x00\x02\x00\x01\x00\x0e\x00\x08",
    ),
    // configuration 2 of 2 isn't there
    (
        b"A5",
        b"\x08\x00\x00\x02\x00\x01\
        \x01\x00\x00\x02\
        \x00\x00\x00\x01\
        \x00\x01\x00\x02\x00\x01\x00\x0e\x00\x08",
    ),

    // What must be 0.
    // a Nothing with argument 1
    (
        b"A6",
        b"\x00\x00\x00\x01\x00\x01\
        \x00\x01\x00\x00\x00\x01\x00\x06\x00\x00",
    ),
    // a not with event byte 1
    (
        b"A6",
        b"\x00\x00\x00\x00\x00\x01\
        \x01\x01\x00\x02\
        \x00\x00\x00\x01\
        \x00\x01\x00\x02\x00\x02\x00\x0e\x00\x08",
    ),

    // How often a Repeat counts its body.
    // Repeat(1, Stop): the body stops, so it counts min(1, 2) times
    (
        b"A7",
        b"\x06\x00\x00\x01\x00\x02\
        \x01\x00\x00\x00\x00\x01\
        \x00\x02\x00\x00\x00\x01\x00\x0c\x00\x00",
    ),
    // Repeat(3, Stop) counts it twice
    (
        b"A7",
        b"\x06\x00\x00\x03\x00\x02\
        \x01\x00\x00\x00\x00\x01\
        \x00\x02\x00\x00\x00\x01\x00\x0c\x00\x00",
    ),
    // Repeat(3, Nothing) three times
    (
        b"A7",
        b"\x06\x00\x00\x03\x00\x02\
        \x00\x00\x00\x00\x00\x01\
        \x00\x02\x00\x00\x00\x01\x00\x0c\x00\x00",
    ),

    // A Repeat of 0.
    // 0 times a body of 65,535 times 65,535 Generates weighs the Repeat alone
    (
        b"A8",
        b"\x06\x00\x00\x00\x00\x04\
        \x06\x00\xff\xff\x00\x03\
        \x06\x00\xff\xff\x00\x02\
        \x07\x00\x00\x00\x00\x01\
        \x00\x04\x00\x00\x00\x01\x00\x18\x00\x00",
    ),
    // once that body is too heavy
    (
        b"A8",
        b"\x06\x00\x00\x01\x00\x04\
        \x06\x00\xff\xff\x00\x03\
        \x06\x00\xff\xff\x00\x02\
        \x07\x00\x00\x00\x00\x01\
        \x00\x04\x00\x00\x00\x01\x00\x18\x00\x00",
    ),
    // a Loop that doesn't stop is refused below a Repeat of 0 too
    (
        b"A8",
        b"\x06\x00\x00\x00\x00\x03\
        \x05\x00\x00\x00\x00\x02\
        \x00\x00\x00\x00\x00\x01\
        \x00\x03\x00\x00\x00\x01\x00\x12\x00\x00",
    ),

    // Refusal 8.
    // 4,094 Generates are the limit
    (
        b"A9",
        b"\x06\x00\x0f\xfe\x00\x02\
        \x07\x00\x00\x00\x00\x01\
        \x00\x02\x00\x00\x00\x01\x00\x0c\x00\x00",
    ),
    // one more is refused with index and figures 0
    (
        b"A9",
        b"\x06\x00\x0f\xff\x00\x02\
        \x07\x00\x00\x00\x00\x01\
        \x00\x02\x00\x00\x00\x01\x00\x0c\x00\x00",
    ),

    // Configurations before nodes, all records before the program.
    // node 0 has no kind 16, but configuration 1 is judged first
    (
        b"A10",
        b"\x10\x00\x00\x00\x00\x01\
        \x00\x00\x00\x01\
        \x00\x01\x00\x01\
        \x00\x01\x00\x02\x00\x01\x00\x0e\x00\x08",
    ),
    // Seq(Loop(Nothing), ..): the record of kind 16 comes before the Loop that doesn't stop
    (
        b"A10",
        b"\x03\x00\x00\x00\x00\x04\
        \x05\x00\x00\x00\x00\x02\
        \x00\x00\x00\x00\x00\x01\
        \x10\x00\x00\x00\x00\x01\
        \x00\x04\x00\x00\x00\x01\x00\x18\x00\x00",
    ),

    // The lowest Loop whose body doesn't stop.
    // Loop(Loop(Nothing)): the inner Loop's body doesn't stop; the inner Loop counts as stopping
    (
        b"A11",
        b"\x05\x00\x00\x00\x00\x03\
        \x05\x00\x00\x00\x00\x02\
        \x00\x00\x00\x00\x00\x01\
        \x00\x03\x00\x00\x00\x01\x00\x12\x00\x00",
    ),

    // The counts before the distances.
    // no node, and a distance that is wrong as well
    (
        b"A12",
        b"\x00\x00\x00\x00\x00\x01\
        \x00\x00\x00\x00\x00\x01\x00\x05\x00\x00",
    ),
    // N, M and V are fine, so the distance is what is wrong
    (
        b"A12",
        b"\x00\x00\x00\x00\x00\x01\
        \x00\x01\x00\x00\x00\x01\x00\x05\x00\x00",
    ),

    // Freezables: 8 for F, an event that isn't listed, and a Loop's body that doesn't stop.
    // 2,048 times a Freezable of two nodes parks 16,384 bytes
    (
        b"A13",
        b"\x06\x00\x08\x00\x00\x03\
        \x0d\x00\x00\x00\x00\x02\
        \x00\x00\x00\x00\x00\x01\
        \x00\x03\x00\x00\x00\x01\x00\x12\x00\x00",
    ),
    // once more is too much
    (
        b"A13",
        b"\x06\x00\x08\x01\x00\x03\
        \x0d\x00\x00\x00\x00\x02\
        \x00\x00\x00\x00\x00\x01\
        \x00\x03\x00\x00\x00\x01\x00\x12\x00\x00",
    ),
    // a Freezable in a Freezable: 12 bytes and 8
    (
        b"A13",
        b"\x0d\x00\x00\x00\x00\x03\
        \x0d\x00\x00\x00\x00\x02\
        \x01\x00\x00\x00\x00\x01\
        \x00\x03\x00\x00\x00\x01\x00\x12\x00\x00",
    ),
    // event 1 of one
    (
        b"A13",
        b"\x0d\x00\x00\x01\x00\x02\
        \x01\x00\x00\x00\x00\x01\
        \x00\x02\x00\x00\x00\x01\x00\x0c\x00\x00",
    ),
    // a Freezable over a Stop doesn't count as stopping
    (
        b"A13",
        b"\x05\x00\x00\x00\x00\x03\
        \x0d\x00\x00\x00\x00\x02\
        \x01\x00\x00\x00\x00\x01\
        \x00\x03\x00\x00\x00\x01\x00\x12\x00\x00",
    ),
];

fn show(out: &mut impl Write, point: &[u8], bytes: &[u8]) {
    let verdict = table::check(bytes);
    let refusal = Numbered::of(verdict);
    let figures = verdict.unwrap_or_default();
    write_out(out, point);
    for n in [
        refusal.number,
        refusal.index,
        figures.generations,
        figures.atoms,
        figures.nodes,
        figures.parked,
    ] {
        write_out(out, b" ");
        // A number that can't be written is passed over, as a text is.
        let _ = print_decimal(out, n as u64);
    }
    write_out(out, b"\n");
}
