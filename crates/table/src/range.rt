ghost use Rattle.table.specs.Range.{range_kinds, MakesRange};

use crate::class::Class;
use crate::class_fault::{ClassFault, NO_KINDS};

// A class as a first and a last kind; a first above the last means the first alone.
#[derive(Clone, Copy, PartialEq, Eq, Debug)]
pub struct Range {
    pub first: u16,
    pub last: u16,
}

impl Range {
    // The class of the kinds from first to last; refused if there are none.
    pub fn new(first: u16, last: u16) -> Result<Range, ClassFault>
        ensures { MakesRange first last result }
    {
        if first > last {
            return Err(NO_KINDS);
        }
        Ok(Range { first, last })
    }
}

impl Class for Range {
    ghost kinds = { λ x. range_kinds x.first x.last };

    fn has(&self, kind: u16) -> bool {
        self.first <= kind && kind <= self.first.max(self.last)
    }

    fn meet(&self, other: &Range) -> Option<Range> {
        let first = self.first.max(other.first);
        let last = self.first.max(self.last).min(other.first.max(other.last));
        Range::new(first, last).ok()
    }

    fn least(&self) -> u16 {
        self.first
    }
}
