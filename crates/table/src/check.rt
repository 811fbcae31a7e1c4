ghost use Rattle.std.specs.Prelude.{◌≡◌};
ghost use Rattle.table.specs.Table.{tab};
ghost use Rattle.table.specs.Check.{limit, is_misplaced, Highest, Names, Checks, ChecksRule, StateCount};

use crate::class::Class;
use crate::fault::{Cause, Fault, Role};
use crate::limits::{FORM_STATES, MAX_RULES, PATTERN_STATES, SETS_PLACE};
use crate::rule::{Rule, Step};
use crate::states::extent;
use crate::table::Table;

impl Role {
    // How many states a table in this role may use.
    fn states(self) -> u8
        ensures { result ≡ limit self }
    {
        match self {
            Role::Form => FORM_STATES,
            Role::Pattern => PATTERN_STATES,
        }
    }
}

impl<C: Class> Rule<C> {
    // The highest state that it names.
    fn highest(&self) -> u8
        ensures { Highest (Names self.now) result }
    {
        let ends = self.from.max(self.to);
        match self.step {
            Step::Empty => ends,
            Step::Node { inside, .. } => ends.max(inside),
        }
    }

    // Whether its step is an empty one, in a form.
    fn is_misplaced(&self, role: Role) -> bool
        ensures { result ≡ is_misplaced role self.now.step }
    {
        matches!((role, self.step), (Role::Form, Step::Empty))
    }

    // Whether it may stand in a table in a role, and if not, why: an empty rule in a form, or else a state beyond the limit.
    fn check(&self, role: Role) -> Result<(), Cause>
        ensures { ChecksRule role self.now result }
    {
        if self.is_misplaced(role) {
            return Err(Cause::EmptyRule);
        }
        if self.highest() >= role.states() {
            return Err(Cause::Bounds);
        }
        Ok(())
    }
}

// Whether a table may serve in a role, and if not, what is first at fault in it.
pub fn check<C: Class>(role: Role, table: Table<C>) -> Result<(), Fault>
    ensures { Checks role (tab table.entry) result }
{
    if table.rules.len() > MAX_RULES {
        return Err(Fault {
            role,
            cause: Cause::Bounds,
            place: MAX_RULES,
        });
    }
    if extent(table.starts | table.finals) > role.states() {
        return Err(Fault {
            role,
            cause: Cause::Bounds,
            place: SETS_PLACE,
        });
    }
    for (i, rule) in table.rules.iter().enumerate() {
        // by `if let`: with the closure of `map_err` the proof did not close
        if let Err(cause) = rule.check(role) {
            return Err(Fault {
                role,
                cause,
                place: i,
            });
        }
    }
    Ok(())
}

// One above the highest state that the table names, 0 if it names none.
pub fn state_count<C: Class>(table: Table<C>) -> usize
    ensures { StateCount (tab table.entry) result }
{
    let mut count = extent(table.starts | table.finals) as usize;
    for rule in table.rules {
        count = count.max(rule.highest() as usize + 1);
    }
    count
}
