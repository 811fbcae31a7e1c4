use crate::fault::Fault;

// A refused call: why, and the box as it was.
#[derive(Drop)]
pub struct Refused<B> {
    pub fault: Fault,
    pub back: B,
}
