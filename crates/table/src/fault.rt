ghost use Rattle.std.specs.Prelude.{◌≡◌};
ghost use Rattle.table.specs.Fault.{number};

use record::fault::Numbered;

// A table serves as a form, which says which records may be filed, or as a pattern, which points at nodes.
#[derive(Clone, Copy, PartialEq, Eq, Debug)]
pub enum Role {
    Form,
    Pattern,
}

// Why the table layer refuses.
#[derive(Clone, Copy, PartialEq, Eq, Debug)]
pub enum Cause {
    Bounds,
    EmptyRule,
    ShortBuffer,
    Double,
}

impl Numbered for Cause {
    ghost numbered = { number };

    fn number(&self) -> u8 {
        match self {
            Cause::Bounds => 6,
            Cause::EmptyRule => 7,
            Cause::ShortBuffer => 8,
            Cause::Double => 12,
        }
    }
}

// A refusal of the table layer: of a form or of a pattern, why, and where. It is no `Refusal`, as it has a role too.
#[derive(Clone, Copy, PartialEq, Eq, Debug)]
pub struct Fault {
    pub role: Role,
    pub cause: Cause,
    pub place: usize,
}

impl Fault {
    // The number of the refusal.
    pub fn number(&self) -> u8
        ensures { result ≡ number self.now.cause }
    {
        self.cause.number()
    }
}
