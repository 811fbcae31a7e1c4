// Records in bytes: what they are, their index, the text of a node, and runs of nodes behind one interface.
#![tactic(auto)]

pub mod fault;
mod fill;
pub mod index;
pub mod indexed;
pub mod laws;
pub mod limits;
mod parse;
pub mod run;
pub mod text;
