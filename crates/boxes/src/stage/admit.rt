ghost use Rattle.std.specs.Prelude.{length};
ghost use Rattle.table.specs.declared.fault.Role.TheVariants.{Form, Pattern};
ghost use Rattle.table.specs.Table.{tab};
ghost use Rattle.table.specs.Check.{SoundTable};
ghost use Rattle.boxes.specs.Check.{each};
ghost use Rattle.boxes.specs.Shelf.{shelf_of, world_of, SameLists};
ghost use Rattle.boxes.specs.Calls.{admit_room_checks, sheet_checks, admit_checks, Admits};
ghost use Rattle.boxes.specs.Stage.{Checked, world, answer, box_after};

use crate::fault::{Cause, Fault};
use crate::limits::MAX_PATTERNS;
use crate::put::put;
use crate::refused::Refused;
use crate::shelf::{PatternEntry, Shelf, ShelfList};
use crate::stage::look::ensure;
use crate::stage::on_shelf::BoxOnShelf;
use crate::stage::{Held, LaidBox};
use examine::examine::examine;
use examine::line::Line;
use examine::size::lines_needed;
use table::check::check;
use table::class::Class;
use table::fault::{Cause as TableCause, Fault as TableFault, Role};
use table::table::Table;

// Sheet and helper are long enough. Asked before room on the shelf, and again by `examine` after it, by the order of refusals.
fn check_sheet<C: Class>(
    form: Table<C>,
    pattern: Table<C>,
    sheet: usize,
    helper: usize,
) -> Result<(), Fault>
    requires form { SoundTable Form (tab form) }
    requires pattern { SoundTable Pattern (tab pattern) }
    ensures { Checked (each (sheet_checks (tab form.entry) (tab pattern.entry) sheet helper)) result }
{
    let place = lines_needed(form, pattern);
    ensure(
        place <= sheet && place <= helper,
        Fault::Table(TableFault {
            role: Role::Pattern,
            cause: TableCause::ShortBuffer,
            place,
        }),
    )
}

impl<'a, C: Class> BoxOnShelf<'a, C> {
    // There is room for one more pattern of this many rules.
    fn check_pattern_room(&self, count: usize) -> Result<(), Fault>
        ensures { Checked (each (admit_room_checks (world self.now).box (world self.now).shelf count)) result }
    {
        let held = self.held;
        ensure(
            count <= self.rules.len() - held.rules,
            ShelfList::Rules.fault(Cause::NoRoom),
        )?;
        ensure(
            held.patterns < MAX_PATTERNS && held.patterns < self.patterns.len(),
            ShelfList::Patterns.fault(Cause::NoRoom),
        )
    }
}

// The checks of admitting, in their order.
fn check_admit<C: Class>(
    held: Held,
    shelf: &Shelf<C>,
    pattern: Table<C>,
    sheet: &mut [Line],
    helper: &mut [u32],
) -> Result<(), Fault>
    ensures { Checked (each (admit_checks (world_of held shelf.now) (tab pattern.entry) (length sheet.old) (length helper.old) C.Class.kinds sheet.new)) result }
{
    let laid = BoxOnShelf::new(held, shelf)?;
    let form = laid.form();
    check(Role::Form, form)?;
    check(Role::Pattern, pattern)?;
    check_sheet(form, pattern, sheet.len(), helper.len())?;
    laid.check_pattern_room(pattern.rules.len())?;
    examine(form, pattern, sheet, helper)?;
    Ok(())
}

impl LaidBox {
    // Admits a pattern that no record, however large, that fits the form has two readings under: its rules go behind those in the rule list.
    pub fn admit<C: Class>(
        self,
        shelf: &mut Shelf<C>,
        pattern: Table<C>,
        sheet: &mut [Line],
        helper: &mut [u32],
    ) -> Result<LaidBox, Refused<LaidBox>>
        ensures same_lists { SameLists shelf.old shelf.new }
        ensures admits { Admits (world_of self.held shelf.old) (tab pattern.entry) (length sheet.old) (length helper.old) C.Class.kinds sheet.new (answer result) (record { box = box_after result; shelf = shelf_of shelf.new }) }
    {
        // by `if let`, as in `file`
        if let Err(fault) = check_admit(self.held, shelf, pattern, sheet, helper) {
            return Err(Refused { fault, back: self });
        }
        let mut held = self.held;
        let count = pattern.rules.len();
        put(shelf.rules, held.rules, pattern.rules);
        shelf.patterns[held.patterns] = PatternEntry {
            first: held.rules,
            count,
            starts: pattern.starts,
            finals: pattern.finals,
        };
        held.rules += count;
        held.patterns += 1;
        Ok(LaidBox { held })
    }
}
