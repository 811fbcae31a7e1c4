// The sets of states at a place, from those at the places of its inside and of what follows.
ghost use Rattle.std.specs.Prelude.{ℕ, ◌↔◌, Some, Option as Maybe};
ghost use Rattle.table.specs.Sets.{bit, Bit};
ghost use Rattle.table.specs.Table.{tab};
ghost use Rattle.table.specs.Counting.{Sets, sets, Leads, Base, Round, Settling};

use crate::checked::Checked;
use crate::class::Class;
use crate::counted::Counted;
use crate::states::{holds, with};

impl<'a, C: Class> Checked<'a, C> {
    // The states from which some node rule takes a node of this kind.
    pub(crate) fn sources(&self, kind: u16, inside: u64, after: u64) -> u64
        ensures { (q : ℕ) → Bit result q ↔ Leads C.Class.kinds (tab self.now.table) kind (bit inside) (bit after) q }
    {
        let mut found = 0;
        // a loop: in the closure of a fold the proof that each state is below 64 did not close
        for rule in self.table.rules {
            if rule.takes(kind, inside, after) {
                found = with(found, rule.from);
            }
        }
        found
    }

    // What the node rules give at a node of this kind.
    pub(crate) fn node_base(&self, kind: u16, inside: Counted, after: Counted) -> Counted
        ensures { Base C.Class.kinds (tab self.now.table) (Some kind) (sets inside) (sets after) (sets result) }
    {
        // a loop, as in `sources`
        let mut base = Counted::default();
        for rule in self.table.rules {
            if rule.takes(kind, inside.some, after.some) {
                base = base.gain(rule.from, rule.touches(inside.many, after.many));
            }
        }
        base
    }

    // The base, with what the empty rules give of the sets known so far.
    fn round(&self, base: Counted, here: Counted) -> Counted
        ensures { (o : Maybe ℕ) (i a : Sets) → Base C.Class.kinds (tab self.now.table) o i a (sets base) → Round C.Class.kinds (tab self.now.table) o (sets here) i a (sets result) }
    {
        // a loop, as in `sources`
        let mut gained = base;
        for rule in self.table.rules {
            if rule.slips(here.some) {
                gained = gained.gain(rule.from, holds(here.many, rule.to));
            }
        }
        gained
    }

    // The sets at a run, from what its node rules or the final states give: rounds of the empty rules, until nothing is new.
    pub(crate) fn settle(&self, base: Counted) -> Counted
        ensures { (o : Maybe ℕ) (i a : Sets) → Base C.Class.kinds (tab self.now.table) o i a (sets base) → Settling C.Class.kinds (tab self.now.table) o i a (sets result) }
    {
        let mut here = base;
        loop {
            let next = here.union(self.round(base, here));
            if next == here {
                return here;
            }
            here = next;
        }
    }
}
