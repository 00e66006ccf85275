//! The calls, answers and refusals of the machine, and its limits.
#![tactic(auto)]

mod answer;
mod call;
mod fault;
pub mod limits;
#[cfg(test)]
mod tests;

pub use answer::{Answer, Cause, Outcome};
pub use call::{Call, Op};
pub use fault::{Fault, Layer, Refusal};
