// Small records and tables, tried: limits and flaws, classes, the check, fitting, counting and listing, and doubles that are shown.
#![tactic(auto)]

#[cfg(test)]
mod doubles;
#[cfg(test)]
mod records;
#[cfg(test)]
mod rules;
#[cfg(test)]
mod tables;
