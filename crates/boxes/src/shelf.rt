ghost use Rattle.std.specs.Prelude.{◌≡◌};
ghost use Rattle.boxes.specs.Fault.{fault, place_of};

use crate::fault::{Cause, Fault};
use table::rule::Rule;

// A pattern on the shelf: its rules in the rule list, and its start and final states. Where rules and bytes begin and how many they are
// stands in plain numbers, as the list is lent and may hold anything.
#[derive(Clone, Copy, Default)]
pub struct PatternEntry {
    pub first: usize,
    pub count: usize,
    pub starts: u64,
    pub finals: u64,
}

// A record on the shelf: its bytes in the byte store.
#[derive(Clone, Copy, Default)]
pub struct RecordEntry {
    pub first: usize,
    pub count: usize,
}

// The lists of a shelf, numbered as a refusal's place names them.
#[derive(Clone, Copy)]
pub(crate) enum ShelfList {
    Rules,
    Patterns,
    Records,
    Bytes,
}

impl ShelfList {
    // A refusal for this list.
    pub(crate) fn fault(self, cause: Cause) -> Fault
        ensures { result ≡ fault cause (place_of self) }
    {
        Fault::boxes(cause, self as usize)
    }
}

// The lent memory that holds a box.
#[derive(Drop)]
pub struct Shelf<'a, C> {
    pub rules: &'a mut [Rule<C>],
    pub patterns: &'a mut [PatternEntry],
    pub records: &'a mut [RecordEntry],
    pub bytes: &'a mut [u8],
}

// A node of a record: its offset and its whole byte count.
#[derive(Clone, Copy, Default, PartialEq, Eq, Debug)]
pub struct Spot {
    pub offset: usize,
    pub size: usize,
}
