// Boxes: one form, the patterns admitted under it and the records filed under it, on a lent shelf.
#![tactic(auto)]

pub mod fault;
pub mod limits;
mod listing;
pub mod promise;
mod put;
pub mod refused;
pub mod shelf;
pub mod stage;
