// What box files, pattern files and record files say, as values.

// How the classes of a box are written: as sets of kinds 0 to 63, or as a first and a last kind.
#[derive(Clone, Copy, PartialEq, Eq, Debug)]
pub enum Writing {
    Mask,
    Range,
}

// A class as written: a bit for each kind, or a first and a last kind. An empty class can be written; the table layer refuses it.
#[derive(Clone, Copy, PartialEq, Eq, Debug)]
pub enum ClassText {
    Mask(u64),
    Range { first: u16, last: u16 },
}

// The step of a rule as written.
#[derive(Clone, Copy, PartialEq, Eq, Debug)]
pub enum StepText {
    Empty,
    Node {
        class: ClassText,
        inside: u8,
        marks: u16,
    },
}

// A rule as written, and the line where it stands.
#[derive(Clone, Copy)]
#[derive_where(PartialEq, Eq, Debug)]
pub struct RuleText {
    pub from: u8,
    pub to: u8,
    pub step: StepText,
    #[derive_where(skip(EqHashOrd))]
    pub line: usize,
}

// A table as written, and the line where it begins.
#[derive(Drop)]
#[derive_where(PartialEq, Eq, Debug)]
pub struct TableText {
    pub starts: u64,
    pub finals: u64,
    pub rules: Vec<RuleText>,
    #[derive_where(skip(EqHashOrd))]
    pub line: usize,
}

// A pattern and its name.
#[derive(Drop, PartialEq, Eq, Debug)]
pub struct PatternText {
    pub name: String,
    pub table: TableText,
}

// How the bytes of a record are written: as nested nodes, or in hexadecimal.
#[derive(Clone, Copy, PartialEq, Eq, Debug)]
pub enum Layout {
    Nodes,
    Hex,
}

// A record, its name, how it was written and the line where it begins.
#[derive(Drop)]
#[derive_where(PartialEq, Eq, Debug)]
pub struct RecordText {
    pub name: String,
    pub bytes: Vec<u8>,
    pub layout: Layout,
    #[derive_where(skip(EqHashOrd))]
    pub line: usize,
}

// What a box was given after its form.
#[derive(Drop, PartialEq, Eq, Debug)]
pub enum Entry {
    Pattern(PatternText),
    Record(RecordText),
}

// A name of a kind or of a mark.
#[derive(Drop, PartialEq, Eq, Debug)]
pub struct Name {
    pub number: u16,
    pub word: String,
}

// How the classes of a box are written, and the names of its kinds and marks.
// The names are lists and no maps: they are looked up by word and by number, and keep the order of the file.
#[derive(Drop, PartialEq, Eq, Debug)]
pub struct Vocabulary {
    pub writing: Writing,
    pub kinds: Vec<Name>,
    pub marks: Vec<Name>,
}

// What a box file says from its form on: the form, the patterns and records in the order of the calls, and the line of the seal.
#[derive(Drop, PartialEq, Eq, Debug)]
pub struct LaidText {
    pub form: TableText,
    pub entries: Vec<Entry>,
    pub sealed: Option<usize>,
}

// A box file: its name, how its classes are written, its names, and what follows if a form is laid.
#[derive(Drop, PartialEq, Eq, Debug)]
pub struct BoxText {
    pub name: String,
    pub vocabulary: Vocabulary,
    pub laid: Option<LaidText>,
}
