// A rule of a table: from one state to another, by a step.
#[derive(Clone, Copy)]
pub struct Rule<C> {
    pub from: u8,
    pub to: u8,
    pub step: Step<C>,
}

// An empty step takes no node. A node step takes a node of its class, whose inside is read from a state, and gives it marks, a bit each.
#[derive(Clone, Copy)]
pub enum Step<C> {
    Empty,
    Node { class: C, inside: u8, marks: u16 },
}
