ghost use Rattle.std.specs.Prelude.{length};
ghost use Rattle.table.specs.Table.{tab};
ghost use Rattle.table.specs.Marks.{MarksAnswer};

use crate::class::Class;
use crate::fault::{Fault, Role};
use crate::table::Table;
use crate::walk::Walk;
use record::run::Runs;

// How many readings a run has under a pattern, as `readings` answers it. After the answer 1, if no node place of the run is named twice,
// the second of the three numbers of each place holds the marks that the reading gives to the node there.
pub fn marks<C: Class, R: Runs>(
    pattern: Table<C>,
    run: &R,
    scratch: &mut [u64],
) -> Result<u8, Fault>
    ensures { MarksAnswer C.Class.kinds (tab pattern.entry) (R.Runs.seen run.now) (R.Runs.highest run.now) (length scratch.old) scratch.new result }
{
    let walk = Walk::new(Role::Pattern, pattern, run, scratch)?;
    let counted = walk.count(scratch);
    if counted == 1 {
        walk.list(scratch);
    }
    Ok(counted)
}
