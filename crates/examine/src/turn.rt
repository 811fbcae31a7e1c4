ghost use Rattle.std.specs.Prelude.{◌≡◌, ◌≢◌};
ghost use Rattle.std.specs.Option.{MatchOption};
ghost use Rattle.examine.specs.Turns.{pairs, state_on, side_fact, Armed, Unarmed, SkipOf};

use crate::fact::{Fact, Sort};
use table::rule::{Rule, Step};

// A rule that takes a node: its number and its states.
#[derive(Clone, Copy)]
pub struct Arm {
    pub rule: usize,
    pub from: u8,
    pub inside: u8,
    pub to: u8,
}

// A rule that takes a node, with its class.
#[derive(Clone, Copy)]
pub struct ClassArm<C> {
    pub class: C,
    pub arm: Arm,
}

// An empty rule: its number and its states.
#[derive(Clone, Copy)]
pub struct Skip {
    pub rule: usize,
    pub from: u8,
    pub to: u8,
}

// A form rule and two pattern rules that take a node of this kind.
#[derive(Clone, Copy)]
pub struct Trio {
    pub kind: u16,
    pub form: Arm,
    pub first: Arm,
    pub second: Arm,
}

// Where a line stands in a node's line: inside the node, or after it.
#[derive(Clone, Copy)]
pub enum Side {
    Inside,
    After,
}

// A line to be taken on one side of a node, with every line below `bound` on the other side.
#[derive(Clone, Copy)]
pub struct Turn {
    pub side: Side,
    pub line: usize,
    pub bound: usize,
}

impl Skip {
    // Rule i, if it is an empty one.
    pub(crate) fn of<C>(i: usize, rule: &Rule<C>) -> Option<Skip>
        ensures { MatchOption result (rule.now.step ≢ Step.Empty) (λ s. SkipOf i rule.now s) }
    {
        match rule.step {
            Step::Empty => Some(Skip {
                rule: i,
                from: rule.from,
                to: rule.to,
            }),
            Step::Node { .. } => None,
        }
    }
}

impl Arm {
    // The state of the rule on a side of the node.
    fn on(self, side: Side) -> u8
        ensures { result ≡ state_on side self.inside self.to }
    {
        match side {
            Side::Inside => self.inside,
            Side::After => self.to,
        }
    }
}

impl Trio {
    // A fact about the run on a side of the node.
    pub(crate) fn fact(self, side: Side, sort: Sort) -> Fact
        ensures { result ≡ side_fact side sort self }
    {
        sort.about(
            self.form.on(side),
            self.first.on(side),
            self.second.on(side),
        )
    }
}

impl Side {
    // Rule i, if it takes a node and has the state on this side.
    pub(crate) fn arm<C: Copy>(self, i: usize, rule: &Rule<C>, state: u8) -> Option<ClassArm<C>>
        ensures { MatchOption result (Unarmed self rule.now state) (λ x. Armed self i rule.now state x.class x.arm) }
    {
        let Step::Node { class, inside, .. } = rule.step else {
            return None;
        };
        let arm = Arm {
            rule: i,
            from: rule.from,
            inside,
            to: rule.to,
        };
        (arm.on(self) == state).then_some(ClassArm { class, arm })
    }
}

impl Turn {
    // Whether two lines, one inside a node and one after it, are due in this turn.
    pub(crate) fn pairs(self, inside: usize, after: usize) -> bool
        ensures { result ≡ pairs self inside after }
    {
        match self.side {
            Side::Inside => inside == self.line && after < self.bound,
            Side::After => after == self.line && inside < self.bound,
        }
    }
}
