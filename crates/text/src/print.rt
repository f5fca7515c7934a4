// Printing a table: refusals 1 to 8 of the table, 24 where the room is too short, else its program's spelling (02, L3).
ghost use Rattle.text.specs.Answers.{Prints};

use crate::PrintRefusal;
use printer::spelled::put_program;
use table::check;

// Prints the program of a table at the start of the room: first into no room, for the length.
pub fn print(table: &[u8], text: &mut [u8]) -> Result<usize, PrintRefusal>
    ensures { Prints table.now text.old text.new result }
{
    check(table)?;
    let length = put_program(table, 0, &mut text[..0], 0);
    if text.len() < length {
        return Err(PrintRefusal::NoRoom);
    }
    put_program(table, 0, text, 0);
    Ok(length)
}
