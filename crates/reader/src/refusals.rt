// What a file is refused for, with the number and the offset that are told.
ghost use Rattle.std.specs.Prelude.{◌≡◌, Some};
ghost use Rattle.reader.specs.FileNumbers.{file_number, of_entry, refused_text};

use coefficients::EntryRefusal;
use coefficients::rows::RefusedRow;
use std::fmt;

// Refusals 1 to 10 and 15 to 17, each under the heading of its clause. Their numbers are their values.
#[derive(Clone, Copy, Debug, PartialEq, Eq)]
pub enum FileRefusal {
    Ends = 1,
    UnknownKind = 2,
    WrongPlace = 3,
    Head = 4,
    Row = 5,
    Point = 6,
    Direction = 7,
    Guard = 8,
    OneTooMany = 9,
    BehindEnd = 10,
    FittedRow = 15,
    BeyondN = 16,
    Drift = 17,
}

impl FileRefusal {
    // Forms 7. The number.
    pub fn number(self) -> u8
        ensures { result ≡ file_number self }
    {
        self as u8
    }
}

// Refusals 5 and 15, of an entry of a row.
impl From<EntryRefusal> for FileRefusal {
    ghost from_gives = { λ entry refusal. refusal ≡ of_entry entry };

    fn from(entry: EntryRefusal) -> FileRefusal {
        match entry {
            EntryRefusal::Scaled => FileRefusal::Row,
            EntryRefusal::Fitted => FileRefusal::FittedRow,
        }
    }
}

// The same of a row that is refused by an entry.
impl From<RefusedRow> for FileRefusal {
    ghost from_gives = { λ row refusal. refusal ≡ of_entry row.refusal };

    fn from(row: RefusedRow) -> FileRefusal {
        FileRefusal::from(row.refusal)
    }
}

// Reading 2. Why a file is refused, and the offset that is told with it.
#[derive(Clone, Copy, Debug, PartialEq, Eq)]
pub struct Refused {
    pub refusal: FileRefusal,
    pub offset: usize,
}

// Listing 7. Number and offset in words, as the programs print them.
impl fmt::Display for Refused {
    ghost output = { λ refused. Some (refused_text refused) };

    fn fmt<W: fmt::Write>(&self, f: &mut fmt::Formatter<W>) -> fmt::Result {
        write!(f, "refused {} at {}", self.refusal.number(), self.offset)
    }
}
