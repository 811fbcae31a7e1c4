ghost use Rattle.std.specs.Prelude.{◌≡◌, IsTrue, length, MatchResult};
ghost use Rattle.table.specs.Table.{tab};
ghost use Rattle.boxes.specs.Shelf.{box_of, shelf_of, world_of, form_of};
ghost use Rattle.boxes.specs.Check.{unless, each};
ghost use Rattle.boxes.specs.Calls.{lengths_check, buffers_checks};
ghost use Rattle.boxes.specs.Stage.{Checked, world};

use crate::fault::{Cause, Fault};
use crate::limits::SCRATCH_NEEDS;
use crate::shelf::{Shelf, ShelfList};
use crate::stage::Held;
use crate::stage::on_shelf::BoxOnShelf;
use record::fault::{Cause as RecordCause, Fault as RecordFault};
use record::index::Entry;
use record::limits::MAX_NODES;
use table::class::Class;
use table::fault::{Cause as TableCause, Fault as TableFault, Role};
use table::table::Table;

// Refuses where a condition does not hold.
pub(crate) fn ensure(holds: bool, fault: Fault) -> Result<(), Fault>
    ensures { Checked (unless (IsTrue holds) fault) result }
{
    if holds { Ok(()) } else { Err(fault) }
}

impl<'a, C: Class> BoxOnShelf<'a, C> {
    // Refused if a list is shorter than its used count.
    pub(crate) fn new(held: Held, shelf: &'a Shelf<C>) -> Result<BoxOnShelf<'a, C>, Fault>
        ensures { MatchResult result
            (λ b. ((lengths_check (box_of held) (shelf_of shelf.now)).passes) × (world b ≡ world_of held shelf.now))
            (λ f. (lengths_check (box_of held) (shelf_of shelf.now)).fails f) }
    {
        ensure(
            held.rules <= shelf.rules.len(),
            ShelfList::Rules.fault(Cause::ShortShelf),
        )?;
        ensure(
            held.patterns <= shelf.patterns.len(),
            ShelfList::Patterns.fault(Cause::ShortShelf),
        )?;
        ensure(
            held.records <= shelf.records.len(),
            ShelfList::Records.fault(Cause::ShortShelf),
        )?;
        ensure(
            held.bytes <= shelf.bytes.len(),
            ShelfList::Bytes.fault(Cause::ShortShelf),
        )?;
        Ok(BoxOnShelf {
            held,
            rules: shelf.rules,
            patterns: shelf.patterns,
            records: shelf.records,
            bytes: shelf.bytes,
        })
    }

    // The form at the front of the rule list.
    pub(crate) fn form(&self) -> Table<'a, C>
        ensures { tab result ≡ form_of (world self.now).box (world self.now).shelf }
    {
        Table {
            starts: self.held.starts,
            finals: self.held.finals,
            rules: &self.rules[..self.held.form_rules],
        }
    }
}

// Index list and scratch are long enough. Asked here before the bytes are looked at, by the order of refusals.
// They stay two lists, as they are lent: the length of each is checked and refused by a number of its own.
pub(crate) fn check_buffers(role: Role, list: &[Entry], scratch: &[u64]) -> Result<(), Fault>
    ensures { Checked (each (buffers_checks role (length list.now) (length scratch.now))) result }
{
    ensure(
        list.len() >= MAX_NODES,
        Fault::Record(RecordFault {
            cause: RecordCause::ShortList,
            place: MAX_NODES,
        }),
    )?;
    ensure(
        scratch.len() >= SCRATCH_NEEDS,
        Fault::Table(TableFault {
            role,
            cause: TableCause::ShortBuffer,
            place: SCRATCH_NEEDS,
        }),
    )
}
