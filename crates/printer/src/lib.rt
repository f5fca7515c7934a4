// Printing the program of an accepted table into a lent room, as far as there is room.
#![tactic(auto)]

pub mod room;
pub mod spelled;
