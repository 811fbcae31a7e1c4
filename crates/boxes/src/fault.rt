ghost use Rattle.std.specs.Prelude.{◌≡◌};
ghost use Rattle.boxes.specs.declared.fault.Fault.TheVariants.{Class, Record, Table};
ghost use Rattle.boxes.specs.Fault.{own_number, number, place, layer_of, fault};

use record::fault::{Fault as RecordFault, Numbered, Refusal};
use table::class_fault::ClassFault;
use table::fault::{Fault as TableFault, Role};

// Why the box layer itself refuses.
#[derive(Clone, Copy, PartialEq, Eq, Debug)]
pub enum Cause {
    ShortShelf,
    NoRoom,
    NoFit,
    Unknown,
    NoReading,
    ShortList,
    TwoReadings,
}

impl Numbered for Cause {
    ghost numbered = { own_number };

    fn number(&self) -> u8 {
        match self {
            Cause::ShortShelf => 9,
            Cause::NoRoom => 10,
            Cause::NoFit => 11,
            Cause::Unknown => 13,
            Cause::NoReading => 14,
            Cause::ShortList => 15,
            Cause::TwoReadings => 16,
        }
    }
}

// A refusal of the box layer.
pub type BoxFault = Refusal<Cause>;

// The layer that refuses.
#[derive(Clone, Copy, PartialEq, Eq, Debug)]
pub enum Layer {
    Class,
    Record,
    Table(Role),
    Boxes,
}

// A refusal of a box's call. One of a lower layer comes up unchanged.
#[derive(Clone, Copy, PartialEq, Eq, Debug)]
pub enum Fault {
    Class(ClassFault),
    Record(RecordFault),
    Table(TableFault),
    Boxes(BoxFault),
}

impl Fault {
    // A refusal of the box layer.
    pub(crate) fn boxes(cause: Cause, place: usize) -> Fault
        ensures { result ≡ fault cause place }
    {
        Fault::Boxes(BoxFault { cause, place })
    }

    pub fn number(&self) -> u8
        ensures { result ≡ number self.now }
    {
        match self {
            Fault::Class(fault) => fault.number(),
            Fault::Record(fault) => fault.number(),
            Fault::Table(fault) => fault.number(),
            Fault::Boxes(fault) => fault.number(),
        }
    }

    pub fn layer(&self) -> Layer
        ensures { result ≡ layer_of self.now }
    {
        match self {
            Fault::Class(_) => Layer::Class,
            Fault::Record(_) => Layer::Record,
            Fault::Table(fault) => Layer::Table(fault.role),
            Fault::Boxes(_) => Layer::Boxes,
        }
    }

    pub fn place(&self) -> usize
        ensures { result ≡ place self.now }
    {
        match self {
            Fault::Class(fault) => fault.place,
            Fault::Record(fault) => fault.place,
            Fault::Table(fault) => fault.place,
            Fault::Boxes(fault) => fault.place,
        }
    }
}

impl From<ClassFault> for Fault {
    ghost from_gives = { λ x y. y ≡ Class x };

    fn from(fault: ClassFault) -> Fault {
        Fault::Class(fault)
    }
}

impl From<RecordFault> for Fault {
    ghost from_gives = { λ x y. y ≡ Record x };

    fn from(fault: RecordFault) -> Fault {
        Fault::Record(fault)
    }
}

impl From<TableFault> for Fault {
    ghost from_gives = { λ x y. y ≡ Table x };

    fn from(fault: TableFault) -> Fault {
        Fault::Table(fault)
    }
}
