//! What a warp can be doing, and what it can wait for.
use protocol::Outcome;

/// What a load or a store wants of its line.
#[derive(Clone, Copy, Default)]
pub enum Access {
    /// The line's value.
    #[default]
    Read,
    /// A new value for the line, once the transaction commits.
    Write { value: u32 },
}

/// A load or a store that waits in the queue.
#[derive(Clone, Copy, Default)]
pub struct Request {
    pub warp: u32,
    pub line: u32,
    pub access: Access,
}

/// What a warp is doing.
#[derive(Clone, Copy)]
pub enum Phase {
    /// It has no transaction.
    Idle,
    /// It has a transaction and may go on.
    Open,
    /// Its last load or store waits.
    Waiting,
    /// Its last load or store waited and is settled, and the outcome is not fetched yet.
    Settled { outcome: Outcome },
}
