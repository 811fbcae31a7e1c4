// Whether some record fits a form and has two readings under a pattern, and the sheet that shows one.
#![tactic(auto)]

mod claim;
mod empties;
pub mod examine;
mod fact;
pub mod line;
mod nodes;
mod product;
mod search;
pub mod sheet;
pub mod size;
mod turn;
