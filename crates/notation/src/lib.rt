// The notation of box files, pattern files and record files: lines and words, numbers, names, texts in quotes, nested nodes into the
// bytes of a record, rules and tables; and readers of whole files.
#![tactic(auto)]

mod block;
pub mod complaint;
mod names;
mod node;
mod number;
pub mod quote;
mod read;
mod rule;
mod scan;
pub mod text;
pub mod value;
mod write;
