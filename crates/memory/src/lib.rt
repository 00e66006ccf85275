//! Memories: their contract, and three kinds of them.
#![tactic(auto)]

mod byte;
mod memory;
mod split;
#[cfg(test)]
mod tests;
mod word;

pub use byte::ByteMemory;
pub use memory::{Memory, no_such_line};
pub use split::SplitMemory;
pub use word::WordMemory;
