ghost use Rattle.std.specs.Prelude.{◌≡◌, MatchResult};
ghost use Rattle.table.specs.Table.{tab};
ghost use Rattle.table.specs.Check.{SoundTable, FaultyTable};
ghost use Rattle.table.specs.Counting.{Bounded};

use crate::check::check;
use crate::class::Class;
use crate::fault::{Fault, Role};
use crate::table::Table;

// A table that passes the check, so that sets of 64 bits hold each state that a rule names.
#[derive(Drop)]
pub(crate) struct Checked<'a, C> {
    pub table: Table<'a, C>,
    ghost bounded: { Bounded (tab table) },
}

impl<'a, C: Class> Checked<'a, C> {
    // The table, if it may serve in a role.
    pub(crate) fn new(role: Role, table: Table<'a, C>) -> Result<Checked<'a, C>, Fault>
        ensures { MatchResult result (λ c. (c.table ≡ table.entry) × SoundTable role (tab table.entry)) (FaultyTable role (tab table.entry)) }
    {
        check(role, table)?;
        Ok(Checked { table })
    }
}
