// What can be wrong with a file of the notation, and where.
ghost use Rattle.std.specs.Prelude.{◌≡◌};
ghost use Rattle.notation.specs.declared.complaint.What.TheVariants.{Memory};
ghost use Rattle.notation.specs.Complaints.{about_file, about_block};

use std::alloc::{AllocError, AllocFailed};

// What is expected where something else stands.
#[derive(Clone, Copy, PartialEq, Eq, Debug)]
pub enum Wanted {
    BoxLine,
    ClassesLine,
    Writing,
    BoxStatement,
    TableStatement,
    PatternBlock,
    RecordBlock,
    Number,
    Kind,
    Mark,
    Name,
    Text,
    Colon,
    OpenBrace,
    CloseBrace,
    OpenBracket,
    CloseBracket,
    Dots,
    Marks,
    HexOrEnd,
    LineEnd,
}

// What is wrong.
#[derive(Clone, Copy, PartialEq, Eq, Debug)]
pub enum What {
    Memory,
    FileTooLarge,
    NotUtf8,
    ControlCharacter,
    Nothing,
    Wanted(Wanted),
    NumberTooLarge { most: u32 },
    UnknownKind,
    UnknownMark,
    BadName,
    NameTwice,
    NumberTwice,
    TooManyNames,
    TextUnclosed,
    BadEscape,
    TextTooLong,
    BadTitle,
    TitleTwice,
    TooManyEntries,
    NameLate,
    FormLate,
    BeforeForm,
    AfterSeal,
    BlockUnclosed,
    BraceUnclosed,
    BraceUnopened,
    TooDeep,
    RecordTooLong,
    BadHex,
    SecondBlock,
}

impl From<AllocError> for What {
    ghost from_gives = { λ _ r. r ≡ Memory };

    fn from(_e: AllocError) -> What {
        What::Memory
    }
}

impl<T: Drop> From<AllocFailed<T>> for What {
    ghost from_gives = { λ _ r. r ≡ Memory };

    fn from(_e: AllocFailed<T>) -> What {
        What::Memory
    }
}

// A line and a column of a file, both counted from 1.
#[derive(Clone, Copy, PartialEq, Eq, Debug)]
pub struct Position {
    pub line: usize,
    pub column: usize,
}

// A complaint: what is wrong, and where; with no position it is about the whole file.
#[derive(Clone, Copy, PartialEq, Eq, Debug)]
pub struct Complaint {
    pub position: Option<Position>,
    pub what: What,
}

impl Complaint {
    // About the whole file.
    pub(crate) fn of_file(what: What) -> Complaint
        ensures { result ≡ about_file what }
    {
        Complaint {
            position: None,
            what,
        }
    }

    // About a block that begins at a line.
    pub(crate) fn of_block(line: usize, what: What) -> Complaint
        ensures { result ≡ about_block line what }
    {
        Complaint {
            position: Some(Position { line, column: 1 }),
            what,
        }
    }
}

impl From<AllocError> for Complaint {
    ghost from_gives = { λ _ r. r ≡ about_file Memory };

    fn from(e: AllocError) -> Complaint {
        Complaint::of_file(What::from(e))
    }
}

impl<T: Drop> From<AllocFailed<T>> for Complaint {
    ghost from_gives = { λ _ r. r ≡ about_file Memory };

    fn from(e: AllocFailed<T>) -> Complaint {
        Complaint::of_file(What::from(e))
    }
}
