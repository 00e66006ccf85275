//! The machine: transactions over any memory and any version book.
#![tactic(auto)]

mod accesses;
mod calls;
mod ending;
mod lines;
mod log;
mod machine;
mod making;
mod parts;
mod questions;
mod queue;
mod refusals;
mod row;
mod running;
mod serving;
mod turn;
mod verdict;
mod warps;

pub use log::{Log, Store};
pub use machine::Machine;
pub use queue::{Queue, QueueLimits};
pub use row::Row;
pub use running::{Ran, run, run_to_vec};
pub use verdict::Encounter;
pub use warps::Warps;
