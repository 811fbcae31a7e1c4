ghost use Rattle.std.specs.Prelude.{◌<◌, length};
ghost use Rattle.record.specs.Run.{run_at};
ghost use Rattle.table.specs.Sets.{bit};
ghost use Rattle.table.specs.Table.{tab};
ghost use Rattle.table.specs.Scratch.{number_at, NoSkips, ExactSome, Fitted};
ghost use Rattle.table.specs.Calls.{FitsAnswer};

use crate::class::Class;
use crate::fault::{Fault, Role};
use crate::scratch::{SOME, number, set_number};
use crate::table::Table;
use crate::walk::Walk;
use record::run::Runs;

impl<'a, C: Class, R: Runs> Walk<'a, C, R> {
    // The states from which the run at a place has a reading, from those at lower places.
    fn fitting(&self, scratch: &[u64], place: usize) -> u64
        requires plain { NoSkips (tab self.now.checked.table) }
        requires room { number_at place SOME < length scratch.now }
        requires fitted { Fitted C.Class.kinds (tab self.now.checked.table) (R.Runs.seen self.now.run.now) scratch.now place }
        ensures { ExactSome C.Class.kinds (tab self.now.checked.table) (run_at (R.Runs.seen self.now.run.now) place) (bit result) }
    {
        match self.look(place) {
            None => self.checked.table.finals,
            Some(node) => {
                let inside = number::<SOME>(scratch, node.inside);
                let after = number::<SOME>(scratch, node.after);
                self.checked.sources(node.kind, inside, after)
            }
        }
    }
}

// Whether a run fits a form.
pub fn fits<C: Class, R: Runs>(form: Table<C>, run: &R, scratch: &mut [u64]) -> Result<bool, Fault>
    ensures { FitsAnswer C.Class.kinds (tab form.entry) (R.Runs.seen run.now) (R.Runs.highest run.now) (length scratch.old) result }
{
    let walk = Walk::new(Role::Form, form, run, scratch)?;
    for place in 0..=walk.top {
        let found = walk.fitting(scratch, place);
        set_number::<SOME>(scratch, place, found);
    }
    Ok(form.starts & number::<SOME>(scratch, walk.top) != 0)
}
