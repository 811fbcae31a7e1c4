// Listing the nodes that a reading marks: from the top place down, the states that readings pass through at each place,
// and the node rules that they use there.
ghost use Rattle.std.specs.Prelude.{ℕ, ◌+◌, ◌<◌, ◌≤◌, ◌↔◌, length};
ghost use Rattle.record.specs.Run.{Spans};
ghost use Rattle.table.specs.Limits.{pattern_states};
ghost use Rattle.table.specs.Sets.{bit, Bit};
ghost use Rattle.table.specs.Table.{tab};
ghost use Rattle.table.specs.Check.{Names};
ghost use Rattle.table.specs.Scratch.{needed, number_at, Filled};
ghost use Rattle.table.specs.Marks.{Listed};
ghost use Rattle.table.specs.Listing.{Alive, Slides, Usage, Adds, Passed};

use crate::checked::Checked;
use crate::class::Class;
use crate::rule::{Rule, Step};
use crate::scratch::{ENTER, MARKS, SOME, number, set_number};
use crate::states::{holds, with};
use crate::walk::Walk;
use record::run::Runs;

// What the rules in use at a node pass on: states inside it and after it, and its marks.
#[derive(Clone, Copy, Default)]
pub(crate) struct Used {
    pub inside: u64,
    pub after: u64,
    pub marks: u64,
}

impl Used {
    // One more rule in use.
    fn add<C: Class>(self, rule: &Rule<C>) -> Used
        requires { (q : ℕ) → Names rule.now q → q < pattern_states }
        ensures { Adds rule.now self result }
    {
        match rule.step {
            Step::Empty => self,
            Step::Node { inside, marks, .. } => Used {
                inside: with(self.inside, inside),
                after: with(self.after, rule.to),
                marks: self.marks | marks as u64,
            },
        }
    }
}

impl<'a, C: Class> Checked<'a, C> {
    // The states with a reading to which an empty rule leads from a live state.
    fn slid(&self, some: u64, live: u64) -> u64
        ensures { (t : ℕ) → Bit result t ↔ Slides (tab self.now.table) (bit some) (bit live) t }
    {
        // a loop, as in `sources`
        let mut found = 0;
        for rule in self.table.rules {
            if rule.slips(some) & holds(live, rule.from) {
                found = with(found, rule.to);
            }
        }
        found
    }

    // The states that readings pass through, if they come in by `enter`: rounds until nothing is new.
    fn alive(&self, some: u64, enter: u64) -> u64
        ensures { (q : ℕ) → Bit result q ↔ Alive (tab self.now.table) (bit some) (bit enter) q }
    {
        let mut live = enter & some;
        // the loop of `settle` over one set: a loop for both would have to state every step of the closure that it calls
        loop {
            let next = live | self.slid(some, live);
            if next == live {
                return live;
            }
            live = next;
        }
    }

    // The node rules in use at a node of this kind.
    fn usage(&self, kind: u16, live: u64, inside: u64, after: u64) -> Used
        ensures { Usage C.Class.kinds (tab self.now.table) kind (bit live) (bit inside) (bit after) result }
    {
        // a loop, as in `sources`
        let mut all = Used::default();
        for rule in self.table.rules {
            if rule.takes(kind, inside, after) & holds(live, rule.from) {
                all = all.add(rule);
            }
        }
        all
    }
}

impl<'a, C: Class, R: Runs> Walk<'a, C, R> {
    // Lists one place: notes the marks of its node, and passes the states on to the node's inside and to what follows.
    fn list_place(&self, scratch: &mut [u64], place: usize)
        requires { number_at place ENTER < length scratch.old }
        ensures { Passed C.Class.kinds (tab self.now.checked.table) (R.Runs.seen self.now.run.now) place scratch.old scratch.new }
    {
        if let Some(node) = self.look(place) {
            let some = number::<SOME>(scratch, place);
            let live = self.checked.alive(some, number::<ENTER>(scratch, place));
            let inside = number::<SOME>(scratch, node.inside);
            let after = number::<SOME>(scratch, node.after);
            let all = self.checked.usage(node.kind, live, inside, after);
            set_number::<ENTER>(scratch, node.inside, all.inside);
            set_number::<ENTER>(scratch, node.after, all.after);
            set_number::<MARKS>(scratch, place, all.marks);
        }
    }

    // Notes at each place, in its second number, the marks that readings give to the node there.
    pub(crate) fn list(&self, scratch: &mut [u64])
        requires room { needed self.now.top ≤ length scratch.old }
        requires filled { Filled C.Class.kinds (tab self.now.checked.table) (R.Runs.seen self.now.run.now) scratch.old (self.now.top + 1) }
        ensures { Spans (R.Runs.seen self.now.run.now) 0 self.now.top self.now.top → Listed C.Class.kinds (tab self.now.checked.table) (R.Runs.seen self.now.run.now) self.now.top scratch.new }
    {
        set_number::<ENTER>(scratch, self.top, self.checked.table.starts);
        for place in (1..=self.top).rev() {
            self.list_place(scratch, place);
        }
    }
}
