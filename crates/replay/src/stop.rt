ghost use Rattle.std.specs.Prelude.{◌≡◌};
ghost use Rattle.replay.specs.declared.stop.Stop.TheVariants.{Memory, Refused as StopRefused};

use boxes::fault::Fault;
use boxes::refused::Refused;
use std::alloc::{AllocError, AllocFailed};
use table::class_fault::ClassFault;

// Why a call that is written in a file is not made, or is refused.
#[derive(Clone, Copy)]
pub enum Stop {
    // no memory is left
    Memory,
    // the class of a rule is written in the other way than the box names; what reads the file lets none through
    OtherWriting,
    // the class of a rule has no kinds
    BadClass { rule: usize, fault: ClassFault },
    // the call is refused
    Refused(Fault),
}

// The call that stops a replay: that of the form, or that of an entry, and why.
#[derive(Clone, Copy)]
pub struct Stopped {
    pub entry: Option<usize>,
    pub stop: Stop,
}

impl From<AllocError> for Stop {
    ghost from_gives = { λ _ s. s ≡ Memory };

    fn from(_e: AllocError) -> Stop {
        Stop::Memory
    }
}

impl<T: Drop> From<AllocFailed<T>> for Stop {
    ghost from_gives = { λ _ s. s ≡ Memory };

    fn from(_e: AllocFailed<T>) -> Stop {
        Stop::Memory
    }
}

impl<B: Drop> From<Refused<B>> for Stop {
    ghost from_gives = { λ r s. s ≡ StopRefused r.fault };

    fn from(refused: Refused<B>) -> Stop {
        Stop::Refused(refused.fault)
    }
}
