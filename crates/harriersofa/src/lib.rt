//! Harriersofa: the reference machine for a GPU's transactional memory, as a library.
//!
//! A `Machine` runs the transactions of up to 32 warps. It stands on a `Memory`, which holds the
//! values of the lines, and a version `Book`, which records when each line was last read and
//! written. Bring your own, or take those that are here: words, bytes or two memories as one, and
//! the exact or the condensed book. Every call answers, whatever its numbers, and what it answers
//! and changes is proved. To make a whole list of calls at once, `run` it.
#![tactic(auto)]

pub use book::{Book, ExactBook, LineState, Refused};
pub use condensed::CondensedBook;
pub use machine::{Log, Machine, Queue, QueueLimits, Ran, Row, Store, Warps, run, run_to_vec};
pub use memory::{ByteMemory, Memory, SplitMemory, WordMemory, no_such_line};
pub use protocol::{Answer, Call, Cause, Fault, Layer, Op, Outcome, Refusal, limits};
pub use rules::{Access, Phase, Request, Verdict};
