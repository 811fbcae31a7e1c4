ghost use Rattle.std.specs.Prelude.{◌≡◌};
ghost use Rattle.table.specs.Table.{tab};
ghost use Rattle.boxes.specs.Shelf.{shelf_of, SameLists};
ghost use Rattle.boxes.specs.Check.{each};
ghost use Rattle.boxes.specs.Calls.{lay_checks, Lays};
ghost use Rattle.boxes.specs.Stage.{Checked, lay_answer};

use crate::fault::{Cause, Fault};
use crate::put::put;
use crate::refused::Refused;
use crate::shelf::{Shelf, ShelfList};
use crate::stage::look::ensure;
use crate::stage::{Held, LaidBox, NewBox};
use table::check::check;
use table::class::Class;
use table::fault::Role;
use table::table::Table;

// The checks of laying, in their order.
fn check_lay<C: Class>(shelf: &Shelf<C>, form: Table<C>) -> Result<(), Fault>
    ensures { Checked (each (lay_checks (tab form.entry) (shelf_of shelf.now))) result }
{
    check(Role::Form, form)?;
    ensure(
        form.rules.len() <= shelf.rules.len(),
        ShelfList::Rules.fault(Cause::NoRoom),
    )
}

impl NewBox {
    // Lays a form: its rules go to the front of the rule list.
    pub fn lay<C: Class>(
        self,
        shelf: &mut Shelf<C>,
        form: Table<C>,
    ) -> Result<LaidBox, Refused<NewBox>>
        ensures same_lists { SameLists shelf.old shelf.new }
        ensures lays { Lays (tab form.entry) (shelf_of shelf.old) (lay_answer result) (shelf_of shelf.new) }
    {
        // by `if let`, as in `file`
        if let Err(fault) = check_lay(shelf, form) {
            return Err(Refused { fault, back: self });
        }
        let count = form.rules.len();
        put(shelf.rules, 0, form.rules);
        let held = Held {
            rules: count,
            patterns: 0,
            records: 0,
            bytes: 0,
            form_rules: count,
            starts: form.starts,
            finals: form.finals,
        };
        Ok(LaidBox { held })
    }
}
