// Rules over masks, in few words.
use table::mask::Mask;
use table::rule::{Rule, Step};

// A rule from a state to another for a node of the kinds of a mask, with an inside state and marks.
pub(crate) fn takes(from: u8, bits: u64, inside: u8, to: u8, marks: u16) -> Rule<Mask> {
    Rule {
        from,
        to,
        step: Step::Node {
            class: Mask { bits },
            inside,
            marks,
        },
    }
}

// An empty rule.
pub(crate) fn slips(from: u8, to: u8) -> Rule<Mask> {
    Rule {
        from,
        to,
        step: Step::Empty,
    }
}
