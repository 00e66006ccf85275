//! The condensed book: a version book of few slots, and a filter for all other lines.
#![tactic(auto)]

mod condensed_book;
pub mod filter;
pub mod slot;

pub use condensed_book::CondensedBook;
