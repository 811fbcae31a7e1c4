use crate::rule::Rule;

// A table: sets of start and of final states, a bit for each, and rules. By the rules for tables the sets are numbers of 64 bits.
#[derive(Clone, Copy)]
pub struct Table<'a, C> {
    pub starts: u64,
    pub finals: u64,
    pub rules: &'a [Rule<C>],
}
