ghost use Rattle.std.specs.Prelude.{◌≡◌};
ghost use Rattle.table.specs.Mask.{meant, mask_kinds, MakesMask};

use crate::class::Class;
use crate::class_fault::{ClassFault, NO_KINDS};
use crate::states::holds;

// A class as 64 bits, bit k for kind k; no bit at all means kind 0 alone.
#[derive(Clone, Copy, PartialEq, Eq, Debug)]
pub struct Mask {
    pub bits: u64,
}

impl Mask {
    // The class of the kinds whose bits are set; refused if none is.
    pub fn new(bits: u64) -> Result<Mask, ClassFault>
        ensures { MakesMask bits result }
    {
        if bits == 0 {
            return Err(NO_KINDS);
        }
        Ok(Mask { bits })
    }

    // The bits that a stored mask means.
    fn meant_bits(&self) -> u64
        ensures { result ≡ meant self.now.bits }
    {
        self.bits.max(1)
    }
}

impl Class for Mask {
    ghost kinds = { λ x. mask_kinds x.bits };

    fn has(&self, kind: u16) -> bool {
        let bits = self.meant_bits();
        // below 64 the cast loses nothing; `u8::try_from` would need a closure or a match for the other kinds
        kind < 64 && holds(bits, kind as u8)
    }

    fn meet(&self, other: &Mask) -> Option<Mask> {
        let bits = self.meant_bits() & other.meant_bits();
        Mask::new(bits).ok()
    }

    fn least(&self) -> u16 {
        self.meant_bits().trailing_zeros() as u16
    }
}
