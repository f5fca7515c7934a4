// The words of the calls program's lines (README.md), read and written.
#![tactic(auto)]

mod reading;
mod writing;

pub use reading::{read_bytes, read_list, read_pair, read_row};
pub use writing::{Spelled, put_numbers, put_word};
