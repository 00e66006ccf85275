//! The verdict on a load or a store.
use protocol::Cause;

/// What the access steps decide of a load or a store.
#[derive(Clone, Copy)]
pub enum Verdict {
    /// The warp itself has the line reserved.
    OwnLine,
    /// The transaction is aborted, and its warp goes on at the next stamp.
    Gone { cause: Cause, next: u64 },
    /// Another warp has the line reserved: the request must wait.
    MustWait,
    /// Nothing stands in its way.
    GoOn,
}
