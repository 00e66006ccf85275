//! The listing of a calls file: the text that a simulator's own listing is compared with.
#![tactic(auto)]

mod listing;
mod row;
mod rows;
mod script;
#[cfg(test)]
mod tests;
pub mod text;
mod writer;

pub use listing::{enough_bytes, list};
pub use script::Script;
pub use writer::{ScriptWriter, write_text};
