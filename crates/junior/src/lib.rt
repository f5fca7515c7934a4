// Junior as definitions: the types that running code and definitions share. The rules are in specs/, their laws in proofs/.

#![tactic(auto)]

// What a term answers to a pass (000, 2.3).
#[derive(Clone, Copy, PartialEq, Eq)]
pub enum Flag {
    SUSP,
    STOP,
    TERM,
}

// What reading a configuration gives (000, 4.1).
#[derive(Clone, Copy, PartialEq, Eq)]
pub enum Verdict {
    Sat,
    Unsat,
    Unknown,
}
