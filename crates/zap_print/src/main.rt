// zap-print: prints the program of `table.bin` in written form, and nothing behind it, so that zap-read can read it (02, L3). A table that
// can't be read counts as empty; a refused one prints as in the listing program.
#![tactic(auto)]

ghost use Rattle.std.specs.Prelude.{◌≡◌, length};

use console::{TABLE, read_table, write_out};
use letters::zeros;
use listing::write_table_refused;
use table::numbers::Numbered;
use text::print::print;

// Only copies of shared configurations make a longer text; it is refused with 24.
const TEXT: usize = 1048576;

fn main(rt: HostRuntime) {
    let mut room = [0u8; TABLE];
    let mut text = zeros::<TEXT>();
    let answer = print(read_table(&rt, &mut room), &mut text);
    let mut out = rt.stdout();
    match answer {
        Ok(n) => {
            write_out(&mut out, &text[..n]);
        }
        Err(why) => {
            let refusal = Numbered::from(why);
            let n = write_table_refused(&mut text, refusal.number, refusal.index);
            write_out(&mut out, &text[..n]);
        }
    }
}
