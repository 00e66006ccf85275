//! A warp's row in the warps' table.
ghost use Rattle.std.specs.Prelude.{◌≡◌, ◌≤◌, [], length};
ghost use Rattle.protocol.specs.Limits.{log_limit};
ghost use Rattle.rules.specs.State.{idle_row, row_in_phase};
ghost use Rattle.machine.specs.Phases.{highest_stamp, highest_stamp_in, next_stamp_in};

use crate::log::{Log, Store};
use rules::Phase;

/// What a warp is doing, its stamp, and its log as plain numbers.
// Keep this form: docs/DECISIONS.md.
#[derive(Clone, Copy)]
pub struct Row {
    pub(crate) phase: Phase,
    pub(crate) stamp: u64,
    pub(crate) len: usize,
    stores: [Store; 32],
    ghost size: { length stores ≡ 32 },
    ghost room: { len ≤ log_limit },
    ghost on_time: { stamp ≤ highest_stamp_in phase },
    ghost next_on_time: { next_stamp_in phase ≤ highest_stamp },
}

// By hand, since a derived one is refused beside a ghost field.
impl Default for Row {
    ghost use Rattle.machine.specs.Rows.{warp_row_in};

    ghost is_default = { λ row. warp_row_in row ≡ idle_row 0 };

    fn default() -> Row {
        Row::idle(0)
    }
}

impl Row {
    ghost use Rattle.machine.specs.Rows.{warp_row_in};

    /// The row of a warp without a transaction.
    pub(crate) fn idle(stamp: u64) -> Row
        requires { stamp ≤ highest_stamp }
        ensures { warp_row_in result ≡ idle_row stamp }
    {
        Row {
            phase: Phase::Idle,
            stamp,
            len: 0,
            stores: [Store::default(); 32],
        }
    }

    /// The row's log, made after one check of its length.
    pub(crate) fn log(&self) -> Log
        ensures { result ≡ (warp_row_in self.now).log }
    {
        Log::of(self.len, &self.stores).unwrap()
    }

    /// Writes a log back to the row.
    pub(crate) fn set_log(&mut self, log: Log)
        ensures { warp_row_in self.new ≡ record (warp_row_in self.old) { log = log } }
    {
        self.len = log.len;
        let stores = log.stores;
        self.stores = stores;
    }

    /// Sets what the warp is doing.
    pub(crate) fn set_phase(&mut self, phase: Phase)
        requires stamp { (warp_row_in self.old).stamp ≤ highest_stamp_in phase }
        requires next { next_stamp_in phase ≤ highest_stamp }
        ensures { warp_row_in self.new ≡ row_in_phase (warp_row_in self.old) phase }
    {
        self.phase = phase;
    }

    /// Sets phase and stamp, and empties the log.
    pub(crate) fn reset(&mut self, phase: Phase, stamp: u64)
        requires stamp { stamp ≤ highest_stamp_in phase }
        requires next { next_stamp_in phase ≤ highest_stamp }
        ensures { warp_row_in self.new ≡ record { phase = phase; stamp = stamp; log = [] } }
    {
        self.phase = phase;
        self.stamp = stamp;
        self.len = 0;
    }
}
