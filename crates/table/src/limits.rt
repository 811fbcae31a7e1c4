// The most rules of a table; the refusal of more names it as the place.
pub const MAX_RULES: usize = 256;

// The place that the refusal of a start or final state names: past every rule.
pub const SETS_PLACE: usize = 257;

// How many states a form and a pattern may use, from 0 on.
pub const FORM_STATES: u8 = 32;

pub const PATTERN_STATES: u8 = 64;

// How many numbers of scratch each place of a run uses.
pub const PER_PLACE: usize = 3;
