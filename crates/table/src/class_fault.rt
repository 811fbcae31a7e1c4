ghost use Rattle.table.specs.ClassFault.{class_number};

use record::fault::{Numbered, Refusal};

// Why the class layer refuses: the class would have no kinds.
#[derive(Clone, Copy, PartialEq, Eq, Debug)]
pub enum ClassCause {
    NoKinds,
}

impl Numbered for ClassCause {
    ghost numbered = { class_number };

    fn number(&self) -> u8 {
        match self {
            ClassCause::NoKinds => 17,
        }
    }
}

// A refusal of the class layer.
pub type ClassFault = Refusal<ClassCause>;

// The one refusal of the class layer.
pub(crate) const NO_KINDS: ClassFault = Refusal {
    cause: ClassCause::NoKinds,
    place: 0,
};
