//! Calls in words.
use protocol::{Call, Op};
use std::fmt;

/// A call, printed in words.
#[derive(Clone, Copy)]
pub struct CallInWords {
    pub call: Call,
}

impl fmt::Display for CallInWords {
    fn fmt<W: fmt::Write>(&self, f: &mut fmt::Formatter<W>) -> fmt::Result {
        let warp = self.call.warp;
        match self.call.op {
            Op::Begin => write!(f, "warp {warp} begins a transaction"),
            Op::Load { line } => write!(f, "warp {warp} loads line {line}"),
            Op::Store { line, value } => write!(f, "warp {warp} stores {value} to line {line}"),
            Op::Commit => write!(f, "warp {warp} commits its transaction"),
            Op::Drop => write!(f, "warp {warp} drops its transaction"),
            Op::Fetch => write!(f, "warp {warp} asks for the outcome of what waited"),
        }
    }
}
