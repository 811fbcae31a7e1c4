ghost use Rattle.boxes.specs.Shelf.{Reaches, box_of};

use crate::shelf::{PatternEntry, RecordEntry};
use crate::stage::Held;
use table::rule::Rule;

// A box on its shelf: what it holds, and the lists, none of which is shorter than its used count. They are borrowed one by one: parts of
// them could not be handed out for as long through a reference to the shelf.
#[derive(Drop)]
pub(crate) struct BoxOnShelf<'a, C> {
    pub held: Held,
    pub rules: &'a [Rule<C>],
    pub patterns: &'a [PatternEntry],
    pub records: &'a [RecordEntry],
    pub bytes: &'a [u8],
    ghost long: { Reaches (box_of held) (record { rules = rules.now; patterns = patterns.now; records = records.now; bytes = bytes.now }) },
}
