ghost use Rattle.std.specs.Prelude.{◌≡◌, ◌<◌, bit_or};
ghost use Rattle.table.specs.Counting.{sets, Grows};

use crate::states::{holds, with};

// Two sets of states at a place: those with a reading, and those with two that differ.
#[derive(Clone, Copy, Default, PartialEq, Eq)]
pub(crate) struct Counted {
    pub some: u64,
    pub many: u64,
}

impl Counted {
    // The states of either.
    pub(crate) fn union(self, other: Counted) -> Counted
        ensures { result ≡ record { some = bit_or self.some other.some; many = bit_or self.many other.many } }
    {
        Counted {
            some: self.some | other.some,
            many: self.many | other.many,
        }
    }

    // One more first step of readings from a state; twice if two readings take it.
    pub(crate) fn gain(self, state: u8, twice: bool) -> Counted
        requires { state < 64 }
        ensures { Grows state twice (sets self) (sets result) }
    {
        let again = twice | holds(self.some, state);
        Counted {
            some: with(self.some, state),
            many: if again {
                with(self.many, state)
            } else {
                self.many
            },
        }
    }
}
