//! The access steps, which give a load or a store its verdict. The first step that applies decides.
ghost use Rattle.std.specs.Prelude.{◌≡◌, ◌≤◌};
ghost use Rattle.rules.specs.Access.{stamp_past, verdict_on_free_line, verdict_by_owner};
ghost use Rattle.rules.specs.Access.{verdict_by_read_mark, retry_verdict, access_verdict};
ghost use Rattle.machine.specs.Phases.{highest_stamp};
ghost use Rattle.machine.specs.Verdicts.{NextWithin};

use book::LineState;
use protocol::Cause;
use rules::{Access, Verdict};

/// A load or a store, its line, and the time of its transaction.
#[derive(Clone, Copy)]
pub struct Encounter {
    pub access: Access,
    /// What the book says of the line.
    pub line: LineState,
    /// The logical time of the transaction: a pair of stamp and warp.
    pub time: (u64, u32),
    ghost bound: { time.0 ≤ highest_stamp },
}

impl Encounter {
    /// All steps, in their order. The first: the line is reserved for the warp itself.
    pub fn access_verdict(self) -> Verdict
        ensures value { result ≡ access_verdict self.access self.line self.time }
        ensures bound { NextWithin highest_stamp result }
    {
        let (_, warp) = self.time;
        match self.line.owner {
            Some(owner) if owner == warp => Verdict::OwnLine,
            Some(_) | None => self.retry_verdict(),
        }
    }

    /// The second step, and the first of a retry: a logically later transaction wrote the line, so
    /// this one is gone.
    pub fn retry_verdict(self) -> Verdict
        ensures value { result ≡ retry_verdict self.access self.line self.time }
        ensures bound { NextWithin highest_stamp result }
    {
        let (stamp, _) = self.time;
        if stamp < u64::from(self.line.write_stamp) {
            return Verdict::Gone {
                cause: Cause::WrittenLater,
                next: self.stamp_past(),
            };
        }
        self.verdict_by_read_mark()
    }

    /// A store to a line that a logically later transaction read: its transaction is gone.
    fn verdict_by_read_mark(self) -> Verdict
        ensures value { result ≡ verdict_by_read_mark self.access self.line self.time }
        ensures bound { NextWithin highest_stamp result }
    {
        let (read, by) = self.line.read_mark;
        match self.access {
            Access::Write { .. } if self.time < (u64::from(read), by) => Verdict::Gone {
                cause: Cause::ReadLater,
                next: self.stamp_past(),
            },
            Access::Read | Access::Write { .. } => self.verdict_by_owner(),
        }
    }

    /// A line that is reserved for another warp: the request must wait.
    fn verdict_by_owner(self) -> Verdict
        ensures value { result ≡ verdict_by_owner self.line.owner self.access self.line self.time }
        ensures bound { NextWithin highest_stamp result }
    {
        match self.line.owner {
            Some(_) => Verdict::MustWait,
            None => self.verdict_on_free_line(),
        }
    }

    /// A line that is not reserved: a load goes on, and so does a store if the line has a slot.
    fn verdict_on_free_line(self) -> Verdict
        ensures value { result ≡ verdict_on_free_line self.access self.line self.time }
        ensures bound { NextWithin highest_stamp result }
    {
        let (stamp, _) = self.time;
        match self.access {
            Access::Write { .. } if !self.line.has_slot => Verdict::Gone {
                cause: Cause::NoSlot,
                next: stamp,
            },
            Access::Read | Access::Write { .. } => Verdict::GoOn,
        }
    }

    /// The stamp to restart at: past the line's write stamp, and for a store its read mark too.
    fn stamp_past(self) -> u64
        ensures value { result ≡ stamp_past self.access self.line }
        ensures bound { result ≤ highest_stamp }
    {
        let (read, _) = self.line.read_mark;
        let latest = match self.access {
            Access::Read => self.line.write_stamp,
            Access::Write { .. } => self.line.write_stamp.max(read),
        };
        u64::from(latest) + 1
    }
}
