// zap-check: checks the table of `table.bin` and prints what the check answers: number, index, generations, atoms, weight, bytes parked. A
// table that can't be read counts as empty.
#![tactic(auto)]

use console::{TABLE, print_decimal, read_table, write_out};
use std::io::Write;
use table::numbers::Numbered;

fn main(rt: HostRuntime) {
    let mut room = [0u8; TABLE];
    tell(&mut rt.stdout(), read_table(&rt, &mut room));
}

fn tell(out: &mut impl Write, table: &[u8]) {
    let verdict = table::check(table);
    let refusal = Numbered::of(verdict);
    let figures = verdict.unwrap_or_default();
    // A number that can't be written is passed over, as a text is.
    let _ = print_decimal(out, refusal.number as u64);
    for n in [
        refusal.index,
        figures.generations,
        figures.atoms,
        figures.nodes,
        figures.parked,
    ] {
        write_out(out, b" ");
        let _ = print_decimal(out, n as u64);
    }
    write_out(out, b"\n");
}
