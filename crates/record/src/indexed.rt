ghost use Rattle.record.specs.Index.{lowered, shown};

use crate::index::Entry;
use crate::limits::MAX_PLACE;
use crate::run::{Node, Runs};

// A lent list of entries up to a top, as a run; any values whatever may stand in it. Place k is entry k - 1; of a sheet it is line k, where
// there may be no run, so the two are not one type.
#[derive(Clone, Copy)]
pub struct Indexed<'a> {
    pub list: &'a [Entry],
    pub top: usize,
}

impl<'a> Runs for Indexed<'a> {
    ghost highest = { λ s. lowered s.list.now s.top };

    ghost seen = { λ s. shown s.list.now s.top };

    fn top(&self) -> usize {
        self.top.min(self.list.len().min(MAX_PLACE))
    }

    fn look(&self, place: usize) -> Option<Node> {
        if place > self.top() {
            return None;
        }
        let entry = self.list.get(place.checked_sub(1)?)?;
        entry.node.if_lower(place)
    }
}
