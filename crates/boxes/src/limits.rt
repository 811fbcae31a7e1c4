use record::limits::MAX_NODES;
use table::limits::PER_PLACE;

// The most patterns and records of a box, and the highest mark.
pub const MAX_PATTERNS: usize = 16;

pub const MAX_RECORDS: usize = 64;

pub const MAX_MARK: u8 = 15;

// How many numbers of scratch a box's calls need: those of each place of the largest record, the empty run's too.
pub const SCRATCH_NEEDS: usize = PER_PLACE * (MAX_NODES + 1);
