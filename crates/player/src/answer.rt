// What a line of input does.
ghost use Rattle.std.specs.Prelude.{◌≡◌, ◌+◌, ◌≤◌, length};
ghost use Rattle.kernel.specs.Answer.{rooms};
ghost use Rattle.listing.specs.Output.{enough};
ghost use Rattle.player.specs.Waiting.{room_under};
ghost use Rattle.player.specs.Answering.{Answers};

use crate::under::put_under;
use table::numbers::Numbered;

// Enough for every table: 4 bytes a node, and the atoms that an instant can do.
pub const STATE: usize = 16384;

pub const ROW: usize = 4096;

// Where the program's pieces are parked, begun empty: its first two bytes, which count those in use, are 0 (02, L8).
pub const STORE: usize = 32768;

// What stays from line to line: the table and what its instants are lent, the line's number, and whether something stands under the line of
// an instant that ran. The rooms are arrays, so that a program never lacks memory.
#[derive(Drop)]
pub struct Player<'a> {
    pub table: &'a [u8],
    pub state: [u8; STATE],
    pub row: [u16; ROW],
    pub store: [u8; STORE],
    pub number: u64,
    pub why: bool,
}

impl Player<'_> {
    // Takes the instant of a line, its newline left out, and puts its output line at the start of a lent room, under it, if `why`, what the
    // program waits for; answers the length of both.
    pub fn answer_line(&mut self, line: &[u8], room: &mut [u8]) -> usize
        requires { enough 4096 + room_under ≤ length room.old }
        ensures answers { Answers
            self.old.why
            self.old.table.now
            self.old.state
            (rooms self.old.row self.old.store)
            line.now
            self.old.number
            self.new.state
            (rooms self.new.row self.new.store)
            room.old
            room.new
            result }
        ensures same_number { self.new.number ≡ self.old.number }
        ensures same_program { (self.new.table.now ≡ self.old.table.now) × (self.new.why ≡ self.old.why) }
    {
        let number = self.number;
        let Some(events) = listing::read_line(line) else {
            return listing::write_bad(room, number);
        };
        // A program that asks the box finds every value 0 (02, L14: "`zap-run` zeros").
        let reply = kernel::instant(
            self.table,
            &mut self.state,
            events,
            &[0; 16],
            &mut self.row,
            &mut self.store,
        );
        match reply {
            Ok(answer) => {
                let n = answer.atoms;
                let listed = listing::write_ran(
                    room,
                    number,
                    answer.passes,
                    answer.finished,
                    answer.events,
                    &self.row[..n],
                );
                put_under(self.table, answer.waits, room, listed, self.why)
            }
            Err(why) => {
                let refusal = Numbered::from(why);
                listing::write_refused(room, number, refusal.number, refusal.index)
            }
        }
    }
}
