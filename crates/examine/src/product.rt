use crate::line::Line;
use table::table::Table;

// A form and a pattern that are read side by side, with their state counts.
// It stands apart from the draft: behind one `&mut` the tables might change. What holds of both is a clause, as a field keeps no readings.
#[derive(Drop)]
pub struct Product<'f, 'p, C> {
    pub form: Table<'f, C>,
    pub pattern: Table<'p, C>,
    pub forms: usize,
    pub states: usize,
}

// A sheet that is being written, lines 1 to `used` - 1 so far, and the helper, which has the line of each fact, or 0.
// Both lists are lent, for there is no heap in this crate: so a length stands beside the lines, and 0 for no line.
#[derive(Drop)]
pub struct Draft<'s, 'h> {
    pub lines: &'s mut [Line],
    pub helper: &'h mut [u32],
    pub used: usize,
}

// A double was found: the line that shows it.
#[derive(Clone, Copy)]
pub struct DoubleAt {
    pub top: usize,
}
