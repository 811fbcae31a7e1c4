// What one rule does, by sets of states.
ghost use Rattle.std.specs.Prelude.{◌≡◌, ℕ, ◌<◌};
ghost use Rattle.table.specs.Limits.{pattern_states};
ghost use Rattle.table.specs.Check.{Names};
ghost use Rattle.table.specs.Sets.{bit};
ghost use Rattle.table.specs.Counting.{takes_step, touches_step, slips_step};

use crate::class::Class;
use crate::rule::{Rule, Step};
use crate::states::{among, holds};

impl<C: Class> Rule<C> {
    // Whether it takes a node of this kind, with its inside from a state of `inside` and what follows from one of `after`.
    pub(crate) fn takes(&self, kind: u16, inside: u64, after: u64) -> bool
        requires { (q : ℕ) → Names self.now q → q < pattern_states }
        ensures { result ≡ takes_step C.Class.kinds kind (bit inside) (bit after) self.now.to self.now.step }
    {
        match self.step {
            Step::Empty => false,
            Step::Node {
                class,
                inside: state,
                ..
            } => among(inside, state) && among(after, self.to) && class.has(kind),
        }
    }

    // Whether its inside state is in `inside` or its to state in `after`.
    pub(crate) fn touches(&self, inside: u64, after: u64) -> bool
        ensures { result ≡ touches_step (bit inside) (bit after) self.now.to self.now.step }
    {
        match self.step {
            Step::Empty => false,
            Step::Node { inside: state, .. } => holds(inside, state) || holds(after, self.to),
        }
    }

    // Whether it is an empty rule to a state of the set.
    pub(crate) fn slips(&self, set: u64) -> bool
        ensures { result ≡ slips_step (bit set) self.now.to self.now.step }
    {
        match self.step {
            Step::Empty => holds(set, self.to),
            Step::Node { .. } => false,
        }
    }
}
