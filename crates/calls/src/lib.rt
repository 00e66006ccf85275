//! The calls file: from its bytes to the machine to make and the calls to make of it.
#![tactic(auto)]

mod file;
mod header;
mod reader;
mod rows;
#[cfg(test)]
mod tests;

pub use file::{BookKind, CallsFile, ReadError};
pub use reader::{enough_bytes, read};
