// The most bytes, nodes and levels of a record; outermost nodes are of level 1.
pub const MAX_BYTES: usize = 16_384;

pub const MAX_NODES: usize = 1_024;

pub const MAX_LEVELS: usize = 64;

// The highest place that a run may have.
pub const MAX_PLACE: usize = 400_000;

// The place that the refusal of an offset names.
pub const NODE_PLACE: usize = 3;
