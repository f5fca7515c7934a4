// The kinds of nodes by name (01, "The table"; L8, L14), as numbers: over table's `Kind` the runner's dispatch got a frame, and passes took 39 per cent
// more. What is waited for goes by the same names.
pub const NOTHING: usize = 0;

pub const STOP: usize = 1;

pub const ATOM: usize = 2;

pub const SEQ: usize = 3;

pub const PAR: usize = 4;

pub const LOOP: usize = 5;

pub const REPEAT: usize = 6;

pub const GENERATE: usize = 7;

pub const AWAIT: usize = 8;

pub const WHEN: usize = 9;

pub const UNTIL: usize = 10;

pub const CONTROL: usize = 11;

pub const LOCAL: usize = 12;

pub const FREEZABLE: usize = 13;

pub const IF: usize = 14;

pub const REPEAT_EXT: usize = 15;
