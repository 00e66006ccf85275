//! Compares a listing with that of a calls file, row by row.
#![tactic(auto)]

mod compare;
mod report;
mod shown;
#[cfg(test)]
mod tests;

pub use compare::{Comparison, find_difference};
pub use report::{Report, compare_listing};
