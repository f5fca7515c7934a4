// The kinds of nodes by name, in the order of their numbers in the table.
ghost use Rattle.std.specs.Prelude.{◌≡◌, true, ◌*◌, ◌<◌, length};
ghost use Rattle.table.specs.Records.{kind_at};
ghost use Rattle.table.specs.Good.{known, children};
ghost use Rattle.table.specs.Kinds.{kind_number, IsKindOf};

use super::records::kind_at;

#[derive(Clone, Copy, PartialEq, Eq)]
pub enum Kind {
    Nothing,
    Stop,
    Atom,
    Seq,
    Par,
    Loop,
    Repeat,
    Generate,
    Await,
    When,
    Until,
    Control,
    Local,
    Freezable,
    If,
    RepeatExt,
}

// A number that is no kind's.
#[derive(Clone, Copy)]
pub struct UnknownKind(pub usize);

impl TryFrom<usize> for Kind {
    type Error = UnknownKind;

    ghost try_from_gives = { IsKindOf };

    fn try_from(number: usize) -> Result<Self, UnknownKind> {
        match number {
            0 => Ok(Kind::Nothing),
            1 => Ok(Kind::Stop),
            2 => Ok(Kind::Atom),
            3 => Ok(Kind::Seq),
            4 => Ok(Kind::Par),
            5 => Ok(Kind::Loop),
            6 => Ok(Kind::Repeat),
            7 => Ok(Kind::Generate),
            8 => Ok(Kind::Await),
            9 => Ok(Kind::When),
            10 => Ok(Kind::Until),
            11 => Ok(Kind::Control),
            12 => Ok(Kind::Local),
            13 => Ok(Kind::Freezable),
            14 => Ok(Kind::If),
            15 => Ok(Kind::RepeatExt),
            _ => Err(UnknownKind(number)),
        }
    }
}

impl Kind {
    // How many children it has.
    #[tactic(auto, unfolding(crate::specs::Good::children))]
    pub fn children(self) -> usize
        ensures { children (kind_number self) ≡ result }
    {
        match self {
            Kind::Nothing | Kind::Stop | Kind::Atom | Kind::Generate | Kind::Await => 0,
            Kind::Loop
            | Kind::Repeat
            | Kind::Control
            | Kind::Local
            | Kind::Freezable
            | Kind::RepeatExt => 1,
            Kind::Seq | Kind::Par | Kind::When | Kind::Until | Kind::If => 2,
        }
    }
}

// Node i's kind, where it is known.
pub fn kind_of(table: &[u8], i: usize) -> Kind
    requires inside { 6 * i < length table.now }
    requires known_kind { known (kind_at table.now i) ≡ true }
    ensures { kind_number result ≡ kind_at table.now i }
{
    match Kind::try_from(kind_at(table, i)) {
        Ok(kind) => kind,
        Err(_) => unreachable!(),
    }
}
