// Tables of states and rules, the records that fit a form, and the readings of a record under a pattern.
#![tactic(auto)]

pub mod check;
mod checked;
pub mod class;
pub mod class_fault;
mod count;
mod counted;
pub mod fault;
pub mod fits;
pub mod laws;
pub mod limits;
mod listing;
pub mod marks;
pub mod mask;
pub mod range;
pub mod readings;
pub mod rule;
mod scratch;
mod settle;
pub mod states;
mod steps;
pub mod table;
mod walk;
