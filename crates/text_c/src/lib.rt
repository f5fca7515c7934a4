// The two calls for C: lent bytes and lent places. include/zapper.h says what stands in each place of an answer.
#![tactic(auto)]

ghost use Rattle.text.specs.Exports.{ReadInPlaces, PrintedInPlaces};

use table::numbers::Numbered;
use text::print::print;
use text::read::read;

#[unsafe(no_mangle)]
pub extern "C" fn zapper_read(text: &[u8], table: &mut [u8], answer: &mut [u64; 3])
    ensures { ReadInPlaces text.now table.old table.new answer.new }
{
    let found = read(text, table);
    let refusal = Numbered::of(found);
    *answer = [
        refusal.number as u64,
        refusal.index as u64,
        found.unwrap_or(0) as u64,
    ];
}

#[unsafe(no_mangle)]
pub extern "C" fn zapper_print(table: &[u8], text: &mut [u8], answer: &mut [u64; 3])
    ensures { PrintedInPlaces table.now text.old text.new answer.new }
{
    let made = print(table, text);
    let refusal = Numbered::of(made);
    *answer = [
        refusal.number as u64,
        refusal.index as u64,
        made.unwrap_or(0) as u64,
    ];
}
