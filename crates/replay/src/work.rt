// The memory that the calls of a box work in.
ghost use Rattle.std.specs.Prelude.{◌≡◌, ◌+◌, min, IfOk, OnOk, vec_len};
ghost use Rattle.record.specs.Limits.{max_nodes};
ghost use Rattle.table.specs.Limits.{form_states, pattern_states};
ghost use Rattle.examine.specs.Search.{most};
ghost use Rattle.boxes.specs.Limits.{scratch_needs};
ghost use Rattle.replay.specs.Work.{LastUsed};

use boxes::limits::SCRATCH_NEEDS;
use examine::line::{Line, LineStep};
use examine::size::most_lines;
use record::index::Entry as Place;
use record::limits::MAX_NODES;
use std::alloc::{AllocError, Global};

// A line that examining never writes: there is no state 255. By the rules for examining it hands back no count of lines, so these tell.
const UNUSED: Line = Line {
    form: 255,
    first: 255,
    second: 255,
    run: None,
    step: LineStep::Stop,
};

// Sheet and helper for examining, index list and scratch for filing and finding, the state count of the form that is laid, and where
// more memory comes from.
#[derive(Drop)]
pub struct Work {
    pub heap: Global,
    pub sheet: Vec<Line>,
    pub helper: Vec<u32>,
    pub list: Vec<Place>,
    pub scratch: Vec<u64>,
    pub form_states: usize,
}

impl Work {
    // Room for filing and finding, and none yet for examining.
    pub fn new(heap: Global) -> Result<Work, AllocError>
        ensures list { IfOk result (λ w. vec_len w.list ≡ max_nodes) }
        ensures scratch { IfOk result (λ w. vec_len w.scratch ≡ scratch_needs) }
        ensures sheet { IfOk result (λ w. vec_len w.sheet ≡ 0) }
        ensures helper { IfOk result (λ w. vec_len w.helper ≡ 0) }
    {
        Ok(Work {
            heap,
            sheet: Vec::new(heap),
            helper: Vec::new(heap),
            list: vec![in heap; Place::default(); MAX_NODES]?,
            scratch: vec![in heap; 0u64; SCRATCH_NEEDS]?,
            // until a form is laid, which sets it
            form_states: 1,
        })
    }

    // Makes room for examining a pattern of so many states.
    pub(crate) fn prepare(&mut self, states: usize) -> Result<(), AllocError>
        ensures sheet { OnOk result (vec_len self.new.sheet ≡ most (min self.old.form_states form_states) (min states pattern_states) + 1) }
        ensures helper { OnOk result (vec_len self.new.helper ≡ most (min self.old.form_states form_states) (min states pattern_states) + 1) }
    {
        let lines = most_lines(self.form_states, states);
        self.sheet = vec![in self.heap; UNUSED; lines]?;
        self.helper = vec![in self.heap; 0u32; lines]?;
        Ok(())
    }

    // The last line of the sheet that was written to since room was made, if one was.
    pub fn lines_used(&self) -> Option<usize>
        ensures { LastUsed self.now.sheet.items result }
    {
        self.sheet.iter().rposition(|line| line.form < 255)
    }
}
