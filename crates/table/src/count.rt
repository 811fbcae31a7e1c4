// Counting the readings of a run, place by place.
ghost use Rattle.std.specs.Prelude.{◌+◌, ◌<◌, ◌≤◌, length};
ghost use Rattle.record.specs.Run.{run_at};
ghost use Rattle.table.specs.Table.{tab};
ghost use Rattle.table.specs.Counting.{sets, Exact};
ghost use Rattle.table.specs.Scratch.{needed, number_at, Filled};
ghost use Rattle.table.specs.Telling.{Tells};
ghost use Rattle.table.specs.Reading.{Counts};

use crate::class::Class;
use crate::counted::Counted;
use crate::scratch::{MANY, SOME, counted_at, set_number};
use crate::walk::Walk;
use record::run::Runs;

// What the sets of the whole run tell at the start states: a number of readings, where 2 stands for two or more by the rules for calls.
fn answer(starts: u64, counted: Counted) -> u8
    ensures { Tells starts (sets counted) result }
{
    if starts & counted.many != 0 {
        return 2;
    }
    (starts & counted.some).count_ones().min(2) as u8
}

impl<'a, C: Class, R: Runs> Walk<'a, C, R> {
    // The two sets of a place, from those of lower places.
    fn counting(&self, scratch: &[u64], place: usize) -> Counted
        requires room { number_at place MANY < length scratch.now }
        requires filled { Filled C.Class.kinds (tab self.now.checked.table) (R.Runs.seen self.now.run.now) scratch.now place }
        ensures { Exact C.Class.kinds (tab self.now.checked.table) (run_at (R.Runs.seen self.now.run.now) place) (sets result) }
    {
        match self.look(place) {
            None => self.checked.settle(Counted {
                some: self.checked.table.finals,
                many: 0,
            }),
            Some(node) => {
                let inside = counted_at(scratch, node.inside);
                let after = counted_at(scratch, node.after);
                self.checked
                    .settle(self.checked.node_base(node.kind, inside, after))
            }
        }
    }

    // Fills the first two sets of every place, and says how many readings the run at the top has.
    pub(crate) fn count(&self, scratch: &mut [u64]) -> u8
        requires room { needed self.now.top ≤ length scratch.old }
        ensures counts { Counts C.Class.kinds (tab self.now.checked.table) (run_at (R.Runs.seen self.now.run.now) self.now.top) result }
        ensures filled { Filled C.Class.kinds (tab self.now.checked.table) (R.Runs.seen self.now.run.now) scratch.new (self.now.top + 1) }
    {
        for place in 0..=self.top {
            let counted = self.counting(scratch, place);
            set_number::<SOME>(scratch, place, counted.some);
            set_number::<MANY>(scratch, place, counted.many);
        }
        answer(self.checked.table.starts, counted_at(scratch, self.top))
    }
}
