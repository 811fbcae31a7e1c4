// Box files opened: the calls that a box file tells of, made on a new box.
#![tactic(auto)]

pub mod calls;
pub mod rules;
pub mod stop;
#[cfg(test)]
mod tests;
pub mod work;
