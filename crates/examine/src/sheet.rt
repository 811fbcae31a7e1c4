ghost use Rattle.examine.specs.Sheet.{lowered, shown};

use crate::line::Line;
use record::limits::MAX_PLACE;
use record::run::{Node, Runs};

// A lent list of lines up to a top, as a run; any values whatever may stand in it. Place k is line k; of an index list it is entry k - 1,
// which always has a node, so the two are not one type.
#[derive(Clone, Copy)]
pub struct Sheet<'a> {
    pub lines: &'a [Line],
    pub top: usize,
}

impl<'a> Runs for Sheet<'a> {
    ghost highest = { λ s. lowered s.lines.now s.top };

    ghost seen = { λ s. shown s.lines.now s.top };

    fn top(&self) -> usize {
        self.top
            .min(self.lines.len().saturating_sub(1).min(MAX_PLACE))
    }

    fn look(&self, place: usize) -> Option<Node> {
        if place > self.top() {
            return None;
        }
        self.lines.get(place)?.run?.if_lower(place)
    }
}
