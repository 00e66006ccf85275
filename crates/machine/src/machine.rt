//! The machine and what it is made of.
use crate::warps::Warps;

// No `impl Model`: see docs/DECISIONS.md.
/// A machine over a memory and a version book: a row for each warp, and the requests that wait.
#[derive(Drop)]
pub struct Machine<M, B> {
    pub(crate) memory: M,
    pub(crate) book: B,
    pub(crate) warps: Warps,
}
