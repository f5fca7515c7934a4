// The steps of a pass: what it does at nodes without children, and what the forms with children do before and after running them. None of
// them is in the runner's cycle of calls.
#![tactic(auto)]

pub mod flags;
pub mod kinds;
pub mod leaves;
pub mod parking;
pub mod phases;
pub mod progress;

use progress::Progress;

// All that a pass runs over: the table, and what it writes: the state, how far the instant has come, the row of atoms and the free part of the store.
#[derive(Drop)]
pub struct Pass<'a> {
    pub table: &'a [u8],
    pub state: &'a mut [u8],
    pub progress: Progress,
    pub atoms: &'a mut [u16],
    pub store: &'a mut [u8],
}
