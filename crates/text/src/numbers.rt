// The requirements' number and index of each refusal (02, L3); a table's has its own in crate table.
ghost use Rattle.std.specs.Prelude.{◌≡◌};
ghost use Rattle.text.specs.Answers.{read_number, read_index, print_number, print_index};

use crate::{PrintRefusal, ReadRefusal};
use table::numbers::Numbered;

impl From<ReadRefusal> for Numbered {
    ghost from_gives = { λ why n. (n.number ≡ read_number why) × (n.index ≡ read_index why) };

    fn from(why: ReadRefusal) -> Numbered {
        match why {
            ReadRefusal::Fails(k) => Numbered {
                number: 21,
                index: k,
            },
            ReadRefusal::NoRoom => Numbered {
                number: 22,
                index: 0,
            },
            ReadRefusal::Table(refusal) => Numbered::from(refusal),
        }
    }
}

impl From<PrintRefusal> for Numbered {
    ghost from_gives = { λ why n. (n.number ≡ print_number why) × (n.index ≡ print_index why) };

    fn from(why: PrintRefusal) -> Numbered {
        match why {
            PrintRefusal::Table(refusal) => Numbered::from(refusal),
            PrintRefusal::NoRoom => Numbered {
                number: 24,
                index: 0,
            },
        }
    }
}
