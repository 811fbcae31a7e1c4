ghost use Rattle.std.specs.Prelude.{◌≡◌, ◌+◌, ◌*◌, ◌<◌, ◌≤◌, ◌++◌, map, length, drop, count_by};
ghost use Rattle.std.specs.List.{range_with_len};
ghost use Rattle.table.specs.Limits.{per_place};
ghost use Rattle.table.specs.Marks.{picked, noted};
ghost use Rattle.boxes.specs.Listing.{spot_at};

use crate::shelf::Spot;
use record::index::Entry;
use table::limits::PER_PLACE;
use table::states::holds;

// A mark, as it is noted in the scratch at the places up to a top.
#[derive(Drop)]
pub(crate) struct Notes<'a> {
    pub scratch: &'a [u64],
    pub top: usize,
    pub mark: u8,
    ghost room: { per_place * (top + 1) ≤ length scratch.now },
}

impl<'a> Notes<'a> {
    // Whether the mark is noted at a place.
    fn has(&self, place: usize) -> bool
        requires { place ≤ self.now.top }
        ensures { result ≡ noted self.now.scratch.now self.now.mark place }
    {
        // the second number of the place, by the promise of `marks`
        holds(self.scratch[PER_PLACE * place + 1], self.mark)
    }

    // At how many places the mark is noted.
    pub(crate) fn count(&self) -> usize
        ensures { result ≡ count_by (noted self.now.scratch.now self.now.mark) (range_with_len 1 self.now.top) }
    {
        (1..self.top + 1).filter(|place| self.has(*place)).count()
    }

    // Writes the nodes of the places at which the mark is noted to the front of `out`, those of high places, which come first in the record,
    // first.
    pub(crate) fn write(&self, list: &[Entry], out: &mut [Spot], count: usize)
        requires places { self.now.top ≤ length list.now }
        requires counted { count ≡ count_by (noted self.now.scratch.now self.now.mark) (range_with_len 1 self.now.top) }
        requires fits { count ≤ length out.old }
        ensures { out.new ≡ map (spot_at list.now) (picked (noted self.now.scratch.now self.now.mark) 0 self.now.top) ++ drop count out.old }
    {
        // from the last node to the first, so that each goes before those already there
        // the slots are counted: zipped with the places the proof did not close, as no fact tells what the list ends as
        let mut free = count;
        for (below, entry) in list[..self.top].iter().enumerate() {
            if self.has(below + 1) {
                free -= 1;
                // by fields, as nothing else makes a spot of an entry
                out[free] = Spot {
                    offset: entry.offset,
                    size: entry.size,
                };
            }
        }
    }
}
