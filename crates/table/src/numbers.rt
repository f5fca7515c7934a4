// The requirements' number and index of a refusal (01, "Refusal numbers"), for whoever has no Result.
ghost use Rattle.std.specs.Prelude.{◌≡◌};
ghost use Rattle.table.specs.Verdict.{refusal_number, refusal_index, Numbers};

use crate::TableRefusal;

#[derive(Clone, Copy, PartialEq, Eq, Debug)]
pub struct Numbered {
    // 0 if nothing was refused.
    pub number: usize,
    pub index: usize,
}

impl Numbered {
    // Of a call's answer: of its refusal, if it is one.
    pub fn of<T: Drop, E: Into<Numbered>>(answer: Result<T, E>) -> Numbered
        ensures { Numbers E.converts answer result }
    {
        match answer {
            Ok(_) => Numbered {
                number: 0,
                index: 0,
            },
            Err(why) => why.into(),
        }
    }
}

impl From<TableRefusal> for Numbered {
    ghost from_gives = { λ why n. (n.number ≡ refusal_number why) × (n.index ≡ refusal_index why) };

    fn from(why: TableRefusal) -> Numbered {
        match why {
            TableRefusal::BadLength => Numbered {
                number: 1,
                index: 0,
            },
            TableRefusal::BadCounts => Numbered {
                number: 2,
                index: 0,
            },
            TableRefusal::BadDistances => Numbered {
                number: 3,
                index: 0,
            },
            TableRefusal::BadConfiguration(j) => Numbered {
                number: 4,
                index: j,
            },
            TableRefusal::BadNode(i) => Numbered {
                number: 5,
                index: i,
            },
            TableRefusal::TooDeep(i) => Numbered {
                number: 6,
                index: i,
            },
            TableRefusal::EndlessLoop(i) => Numbered {
                number: 7,
                index: i,
            },
            TableRefusal::TooHeavy => Numbered {
                number: 8,
                index: 0,
            },
        }
    }
}
