// Programs in written form: reading a text into a table, and printing a table as a text. Both answer the length of what they wrote.
#![tactic(auto)]

ghost use Rattle.std.specs.Prelude.{◌≡◌};
ghost use Rattle.text.specs.declared.ReadRefusal.TheVariants as answered;
ghost use Rattle.text.specs.declared.PrintRefusal.TheVariants as told;

use table::TableRefusal;

pub mod numbers;
pub mod print;
pub mod read;

// Why no text was read; specs/Answers.antt has each one's number and index.
#[derive(Clone, Copy, PartialEq, Eq, Debug)]
pub enum ReadRefusal {
    Fails(usize),
    NoRoom,
    // The table that the text spells is refused, and so.
    Table(TableRefusal),
}

impl From<TableRefusal> for ReadRefusal {
    ghost from_gives = { λ why r. r ≡ answered.Table why };

    fn from(why: TableRefusal) -> ReadRefusal {
        ReadRefusal::Table(why)
    }
}

// Why no table was printed.
#[derive(Clone, Copy, PartialEq, Eq, Debug)]
pub enum PrintRefusal {
    // The table was refused, and so.
    Table(TableRefusal),
    NoRoom,
}

impl From<TableRefusal> for PrintRefusal {
    ghost from_gives = { λ why r. r ≡ told.Table why };

    fn from(why: TableRefusal) -> PrintRefusal {
        PrintRefusal::Table(why)
    }
}
