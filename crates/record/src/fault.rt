ghost use Rattle.std.specs.Prelude.{◌≡◌, ℕ};
ghost use Rattle.record.specs.Fault.{number};

// Why a layer refuses: each cause has a number. All tell it by a `match`, alike: the record's cause holds data, and `as` gives no number of
// such.
pub trait Numbered {
    ghost numbered: { Self → ℕ };

    // The number of the refusal.
    fn number(&self) -> u8
        ensures { result ≡ numbered self.now };
}

// A refusal of a layer: why, and where. By a rule of the project the place is a number, whatever it counts.
#[derive(Clone, Copy, PartialEq, Eq, Debug)]
pub struct Refusal<C> {
    pub cause: C,
    pub place: usize,
}

impl<C: Numbered> Refusal<C> {
    // The number of the refusal.
    pub fn number(&self) -> u8
        ensures { result ≡ C.Numbered.numbered self.now.cause }
    {
        self.cause.number()
    }
}

// What can be wrong with a node, in the order in which it is asked.
#[derive(Clone, Copy, PartialEq, Eq, Debug)]
pub enum Flaw {
    TooDeep,
    TooMany,
    CutShort,
    TextTooLong,
}

// Why the record layer refuses.
#[derive(Clone, Copy, PartialEq, Eq, Debug)]
pub enum Cause {
    TooLong,
    Flawed(Flaw),
    ShortList,
    NoNode,
}

impl Numbered for Cause {
    ghost numbered = { number };

    fn number(&self) -> u8 {
        match self {
            Cause::TooLong => 1,
            Cause::Flawed(Flaw::CutShort) => 2,
            Cause::Flawed(Flaw::TextTooLong) => 3,
            Cause::Flawed(Flaw::TooDeep) => 4,
            Cause::Flawed(Flaw::TooMany) => 5,
            Cause::ShortList => 8,
            Cause::NoNode => 13,
        }
    }
}

// A refusal of the record layer.
pub type Fault = Refusal<Cause>;
