// A run read under a table.
ghost use Rattle.std.specs.Prelude.{◌≡◌, ◌<◌, length, IfSome, MatchResult};
ghost use Rattle.record.specs.Run.{Places};
ghost use Rattle.table.specs.Table.{tab};
ghost use Rattle.table.specs.Calls.{Admitted, Refused};

use crate::checked::Checked;
use crate::class::Class;
use crate::fault::{Fault, Role};
use crate::scratch::measure;
use crate::table::Table;
use record::run::{Node, Runs};

// A table that passes the check, and a run with its top place. The scratch is no field: a struct that holds what is lent as `&mut` would
// have to say after each call that it is still the same list.
#[derive(Drop)]
pub(crate) struct Walk<'a, C, R: Runs> {
    pub checked: Checked<'a, C>,
    pub run: &'a R,
    pub top: usize,
    ghost highest: { top ≡ R.Runs.highest run.now },
    ghost places: { Places (R.Runs.highest run.now) (R.Runs.seen run.now) },
}

impl<'a, C: Class, R: Runs> Walk<'a, C, R> {
    // Refused for the table, else for a scratch too short for the run.
    pub(crate) fn new(
        role: Role,
        table: Table<'a, C>,
        run: &'a R,
        scratch: &[u64],
    ) -> Result<Walk<'a, C, R>, Fault>
        ensures { MatchResult result (λ w. (w.checked.table ≡ table.entry) × (w.run.now ≡ run.now) × Admitted role (tab w.checked.table) w.top (length scratch.now)) (Refused role (tab table.entry) (R.Runs.highest run.now) (length scratch.now)) }
    {
        let checked = Checked::new(role, table)?;
        let top = measure(role, run, scratch)?;
        Ok(Walk { checked, run, top })
    }

    // The node at a place, if there is one; its inside and what follows it are at lower places.
    pub(crate) fn look(&self, place: usize) -> Option<Node>
        ensures seen { result ≡ R.Runs.seen self.now.run.now place }
        ensures lower { IfSome result (λ n. (n.inside < place) × (n.after < place)) }
    {
        self.run.look(place)
    }
}
