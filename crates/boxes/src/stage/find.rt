ghost use Rattle.std.specs.Prelude.{◌≡◌, length, MatchResult};
ghost use Rattle.table.specs.Table.{tab};
ghost use Rattle.boxes.specs.declared.stage.Held.{Held};
ghost use Rattle.boxes.specs.Check.{Fails};
ghost use Rattle.boxes.specs.Shelf.{world_of};
ghost use Rattle.boxes.specs.Calls.{read_checks, Finds};
ghost use Rattle.boxes.specs.Locate.{ReadOnce};

use crate::fault::{Cause, Fault};
use crate::listing::Notes;
use crate::shelf::{Shelf, Spot};
use crate::stage::locate::Query;
use crate::stage::look::{check_buffers, ensure};
use crate::stage::on_shelf::BoxOnShelf;
use crate::stage::{Held, LaidBox};
use record::index::{Entry, index};
use record::indexed::Indexed;
use table::class::Class;
use table::fault::Role;
use table::marks::marks;
use table::table::Table;

// Indexes a record and notes the marks of its reading in the scratch; refused unless it has exactly one reading. Answers the top place.
fn read_once<C: Class>(
    pattern: Table<C>,
    bytes: &[u8],
    list: &mut [Entry],
    scratch: &mut [u64],
) -> Result<usize, Fault>
    ensures { MatchResult result
        (λ top. ReadOnce C.Class.kinds (tab pattern.entry) bytes.now (length list.old) (length scratch.old) list.new scratch.new top)
        (λ f. Fails (read_checks C.Class.kinds (tab pattern.entry) bytes.now (length list.old) (length scratch.old)) f) }
{
    check_buffers(Role::Pattern, list, scratch)?;
    let top = index(bytes, list)?;
    let run = Indexed { list, top };
    match marks(pattern, &run, scratch)? {
        0 => Err(Fault::boxes(Cause::NoReading, 0)),
        1 => Ok(top),
        _ => Err(Fault::boxes(Cause::TwoReadings, 0)),
    }
}

// The nodes of a record to which its reading gives a mark.
fn find_in<C: Class>(
    held: Held,
    shelf: &Shelf<C>,
    query: Query,
    list: &mut [Entry],
    scratch: &mut [u64],
    out: &mut [Spot],
) -> Result<usize, Fault>
    ensures { Finds C.Class.kinds (world_of held shelf.now) query.pattern query.record query.mark (length list.old) (length scratch.old) out.old result out.new }
{
    let laid = BoxOnShelf::new(held, shelf)?;
    let located = laid.locate(query)?;
    let top = read_once(located.pattern, located.bytes, list, scratch)?;
    let notes = Notes {
        scratch,
        top,
        mark: query.mark,
    };
    let count = notes.count();
    ensure(count <= out.len(), Fault::boxes(Cause::ShortList, count))?;
    notes.write(list, out, count);
    Ok(count)
}

// A box with a form, whether more may come into it or not.
pub trait Formed {
    ghost holds: { Self → Held };

    // What the box holds.
    fn held(&self) -> Held
        ensures { result ≡ holds self.now };

    // Lists the nodes of a record to which its reading under a pattern gives a mark, in record order, and answers how many. The lists are
    // lent, and the length of each is refused by a number.
    fn find<C: Class>(
        &self,
        shelf: &Shelf<C>,
        query: Query,
        list: &mut [Entry],
        scratch: &mut [u64],
        out: &mut [Spot],
    ) -> Result<usize, Fault>
        ensures { Finds C.Class.kinds (world_of (holds self.now) shelf.now) query.pattern query.record query.mark (length list.old) (length scratch.old) out.old result out.new }
    {
        find_in(self.held(), shelf, query, list, scratch, out)
    }
}

impl Formed for LaidBox {
    ghost holds = { λ b. b.held };

    fn held(&self) -> Held {
        self.held
    }
}
