ghost use Rattle.std.specs.Prelude.{length};
ghost use Rattle.table.specs.Table.{tab};
ghost use Rattle.table.specs.Calls.{ReadingsAnswer};

use crate::class::Class;
use crate::fault::{Fault, Role};
use crate::table::Table;
use crate::walk::Walk;
use record::run::Runs;

// How many readings a run has under a pattern: 0, 1, or 2 for two or more.
pub fn readings<C: Class, R: Runs>(
    pattern: Table<C>,
    run: &R,
    scratch: &mut [u64],
) -> Result<u8, Fault>
    ensures { ReadingsAnswer C.Class.kinds (tab pattern.entry) (R.Runs.seen run.now) (R.Runs.highest run.now) (length scratch.old) result }
{
    let walk = Walk::new(Role::Pattern, pattern, run, scratch)?;
    Ok(walk.count(scratch))
}
