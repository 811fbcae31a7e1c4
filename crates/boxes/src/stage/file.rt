ghost use Rattle.std.specs.Prelude.{◌≤◌, length};
ghost use Rattle.record.specs.Index.{IndexedAs};
ghost use Rattle.table.specs.declared.fault.Role.TheVariants.{Form};
ghost use Rattle.table.specs.Table.{tab};
ghost use Rattle.table.specs.Check.{SoundTable};
ghost use Rattle.boxes.specs.declared.fault.Cause.TheVariants.{NoFit};
ghost use Rattle.boxes.specs.Fault.{fault};
ghost use Rattle.boxes.specs.Limits.{scratch_needs};
ghost use Rattle.boxes.specs.Check.{unless, each};
ghost use Rattle.boxes.specs.Shelf.{shelf_of, world_of, SameLists};
ghost use Rattle.boxes.specs.Record.{Read};
ghost use Rattle.boxes.specs.Calls.{file_checks, file_room_checks, Files};
ghost use Rattle.boxes.specs.Stage.{Checked, world, answer, box_after};

use crate::fault::{Cause, Fault};
use crate::limits::MAX_RECORDS;
use crate::put::put;
use crate::refused::Refused;
use crate::shelf::{RecordEntry, Shelf, ShelfList};
use crate::stage::look::{check_buffers, ensure};
use crate::stage::on_shelf::BoxOnShelf;
use crate::stage::{Held, LaidBox};
use record::index::{Entry, index};
use record::indexed::Indexed;
use table::check::check;
use table::class::Class;
use table::fault::Role;
use table::fits::fits;
use table::table::Table;

impl<'a, C: Class> BoxOnShelf<'a, C> {
    // There is room for one more record of this many bytes.
    // The entry is asked for before the bytes here, and after the rules for a pattern: so the two are not one function of a list.
    fn check_record_room(&self, count: usize) -> Result<(), Fault>
        ensures { Checked (each (file_room_checks (world self.now).box (world self.now).shelf count)) result }
    {
        let held = self.held;
        ensure(
            held.records < MAX_RECORDS && held.records < self.records.len(),
            ShelfList::Records.fault(Cause::NoRoom),
        )?;
        ensure(
            count <= self.bytes.len() - held.bytes,
            ShelfList::Bytes.fault(Cause::NoRoom),
        )
    }
}

// The indexed record fits the form.
fn check_fits<C: Class>(
    form: Table<C>,
    bytes: &[u8],
    list: &[Entry],
    top: usize,
    scratch: &mut [u64],
) -> Result<(), Fault>
    requires form { SoundTable Form (tab form) }
    requires room { scratch_needs ≤ length scratch.old }
    requires indexed { IndexedAs bytes.now list.now top }
    ensures { Checked (unless (Read C.Class.kinds (tab form.entry) bytes.now) (fault NoFit 0)) result }
{
    let run = Indexed { list, top };
    // a form that passed the check and a scratch that is long enough are not refused
    let answer = fits(form, &run, scratch).unwrap_or(false);
    ensure(answer, Fault::boxes(Cause::NoFit, 0))
}

// The checks of filing, in their order.
fn check_file<C: Class>(
    held: Held,
    shelf: &Shelf<C>,
    bytes: &[u8],
    list: &mut [Entry],
    scratch: &mut [u64],
) -> Result<(), Fault>
    ensures { Checked (each (file_checks C.Class.kinds (world_of held shelf.now) bytes.now (length list.old) (length scratch.old))) result }
{
    let laid = BoxOnShelf::new(held, shelf)?;
    let form = laid.form();
    check(Role::Form, form)?;
    check_buffers(Role::Form, list, scratch)?;
    let top = index(bytes, list)?;
    laid.check_record_room(bytes.len())?;
    check_fits(form, bytes, list, top, scratch)
}

impl LaidBox {
    // Files a record that fits the form: its bytes go behind those in the byte store.
    pub fn file<C: Class>(
        self,
        shelf: &mut Shelf<C>,
        bytes: &[u8],
        list: &mut [Entry],
        scratch: &mut [u64],
    ) -> Result<LaidBox, Refused<LaidBox>>
        ensures same_lists { SameLists shelf.old shelf.new }
        ensures files { Files C.Class.kinds (world_of self.held shelf.old) bytes.now (length list.old) (length scratch.old) (answer result) (record { box = box_after result; shelf = shelf_of shelf.new }) }
    {
        // by `if let`: the closure of `map_err` takes the box, and with it the proof did not close
        if let Err(fault) = check_file(self.held, shelf, bytes, list, scratch) {
            return Err(Refused { fault, back: self });
        }
        let mut held = self.held;
        put(shelf.bytes, held.bytes, bytes);
        shelf.records[held.records] = RecordEntry {
            first: held.bytes,
            count: bytes.len(),
        };
        held.records += 1;
        held.bytes += bytes.len();
        Ok(LaidBox { held })
    }
}
