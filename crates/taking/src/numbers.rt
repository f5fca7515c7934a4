// The requirements' number and index of each refusal of a taking; a table's has its own in crate table.
ghost use Rattle.std.specs.Prelude.{◌≡◌};
ghost use Rattle.taking.specs.Taking.{taking_number, taking_index};

use crate::TakeRefusal;
use table::numbers::Numbered;

impl From<TakeRefusal> for Numbered {
    ghost from_gives = { λ why n. (n.number ≡ taking_number why) × (n.index ≡ taking_index why) };

    fn from(why: TakeRefusal) -> Numbered {
        match why {
            TakeRefusal::Table(refusal) => Numbered::from(refusal),
            TakeRefusal::BadStore => Numbered {
                number: 25,
                index: 0,
            },
            TakeRefusal::NoPiece => Numbered {
                number: 14,
                index: 0,
            },
            TakeRefusal::NoRoom => Numbered {
                number: 15,
                index: 0,
            },
        }
    }
}
