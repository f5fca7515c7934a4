// The requirements' number and index of each refusal (01, "Refusal numbers"); a table's has its own in crate table.
ghost use Rattle.std.specs.Prelude.{◌≡◌};
ghost use Rattle.kernel.specs.Answer.{call_number, call_index};

use crate::Refusal;
use table::numbers::Numbered;

impl From<Refusal> for Numbered {
    ghost from_gives = { λ why n. (n.number ≡ call_number why) × (n.index ≡ call_index why) };

    fn from(why: Refusal) -> Numbered {
        match why {
            Refusal::Table(refusal) => Numbered::from(refusal),
            Refusal::StateRoom => Numbered {
                number: 9,
                index: 0,
            },
            Refusal::NotAtRest(i) => Numbered {
                number: 10,
                index: i,
            },
            Refusal::UnlistedEvent(e) => Numbered {
                number: 11,
                index: e,
            },
            Refusal::AtomRoom => Numbered {
                number: 12,
                index: 0,
            },
            Refusal::BadStore => Numbered {
                number: 25,
                index: 0,
            },
            Refusal::StoreRoom => Numbered {
                number: 13,
                index: 0,
            },
        }
    }
}
