use record::run::Node;

// How the readings of a line go on. Rules go by number; `line` is the line led to.
#[derive(Clone, Copy, Default)]
pub enum LineStep {
    #[default]
    Stop,
    First {
        rule: usize,
        line: usize,
    },
    Second {
        rule: usize,
        line: usize,
    },
    Both {
        first: usize,
        second: usize,
        line: usize,
    },
    Node {
        form: usize,
        first: usize,
        second: usize,
    },
}

// A line of a sheet: a form state and two pattern states, a run that is read from each of them, and how the three readings begin.
// The run is empty, or a node with the lines of its inside and of what follows it; lines are named by number, as the sheet is lent.
#[derive(Clone, Copy, Default)]
pub struct Line {
    pub form: u8,
    pub first: u8,
    pub second: u8,
    pub run: Option<Node>,
    pub step: LineStep,
}
