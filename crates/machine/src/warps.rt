//! The warps' table and the queue.
ghost use Rattle.std.specs.Prelude.{◌≡◌, ◌<◌, ◌≤◌, true, false, [], ◌∷◌, ◌++◌, length, map, take};
ghost use Rattle.std.specs.Prelude.{IfSome, MatchOption, is_some, nat_lt, slice_get, slice_set};
ghost use Rattle.protocol.specs.Limits.{last_stamp, log_limit};
ghost use Rattle.rules.specs.Queue.{request_of, requests_on, queue_without, is_full, pending_at};
ghost use Rattle.rules.specs.State.{idle_row, open_row, row_in_phase, row_with_store};
ghost use Rattle.rules.specs.State.{is_idle, is_waiting};
ghost use Rattle.rules.specs.declared.state.Phase.TheVariants.{Open, Waiting, Settled};
ghost use Rattle.machine.specs.Phases.{highest_stamp, highest_stamp_in, next_stamp, next_stamp_in};
ghost use Rattle.machine.specs.Phases.{is_open, is_settled};
ghost use Rattle.machine.specs.Rows.{warp_row_in};
ghost use Rattle.machine.specs.Soundness.{QueueFitsRows};

use crate::log::{Log, Store};
use crate::queue::{Queue, QueueLimits};
use crate::row::Row;
use arrayvec::ArrayVec;
use protocol::Outcome;
use rules::{Access, Phase, Request};

/// A row for each warp, and the requests that wait. Each request belongs to a waiting warp, and a
/// store that waits has room in its warp's log.
#[derive(Drop)]
pub struct Warps {
    pub(crate) rows: ArrayVec<Row, 32>,
    pub(crate) queue: Queue,
    ghost count: { length rows.items ≤ 32 },
    ghost sound: { QueueFitsRows rows.items queue },
}

impl Warps {
    ghost use Rattle.machine.specs.Warps.{warp_rows, queue_of, warp_row, has_room_for, has_room};

    /// Idle warps at their first stamps: one for each stamp, up to the maximum number of warps.
    pub fn new(stamps: &[u32]) -> Warps
        ensures warp_rows { warp_rows result ≡ map idle_row (take 32 stamps.now) }
        ensures queue { queue_of result ≡ [] }
    {
        let mut rows = ArrayVec::new();
        for stamp in &stamps[..stamps.len().min(32)] {
            rows.push(Row::idle(u64::from(*stamp)));
        }
        Warps {
            rows,
            queue: Queue::new(),
        }
    }

    /// The number of warps.
    pub fn len(&self) -> usize
        ensures { result ≡ length (warp_rows self.now) }
    {
        self.rows.len()
    }

    /// A warp's row, if it has one.
    fn row(&self, warp: u32) -> Option<&Row>
        ensures { MatchOption result (warp_row self.now warp ≡ idle_row 0)
            (λ row. warp_row_in row.now ≡ warp_row self.now warp) }
    {
        self.rows.get(warp as usize)
    }

    /// What a warp is doing.
    pub fn phase(&self, warp: u32) -> Phase
        ensures value { result ≡ (warp_row self.now warp).phase }
        ensures next { next_stamp_in result ≤ highest_stamp }
    {
        self.row(warp).map_or(Phase::Idle, |row| row.phase)
    }

    /// A warp's stamp.
    pub fn stamp(&self, warp: u32) -> u64
        ensures value { result ≡ (warp_row self.now warp).stamp }
        ensures highest { result ≤ highest_stamp }
        // A transaction is not past the end of the clock.
        ensures on_time { is_idle (warp_row self.now warp).phase ≡ false → result ≤ last_stamp }
    {
        self.row(warp).map_or(0, |row| row.stamp)
    }

    /// The number of stores that a warp has logged.
    pub fn stored_count(&self, warp: u32) -> usize
        ensures { result ≡ length (warp_row self.now warp).log }
    {
        self.row(warp).map_or(0, |row| row.len)
    }

    /// A warp's log.
    pub fn log(&self, warp: u32) -> Log
        ensures { result ≡ (warp_row self.now warp).log }
    {
        self.row(warp).map_or_else(Log::new, Row::log)
    }

    /// A warp's request, if it has one.
    pub fn request_of(&self, warp: u32) -> Option<Request>
        ensures { result ≡ request_of (queue_of self.now) warp }
    {
        self.queue.request_of(warp)
    }

    /// The request at a place of the queue, counted from 0.
    pub fn request_at(&self, place: usize) -> Option<Request>
        ensures { result ≡ slice_get (queue_of self.now) place }
    {
        self.queue.request_at(place)
    }

    /// Whether the queue has no room for one more request for a line.
    pub fn is_full(&self, line: u32, limits: QueueLimits) -> bool
        ensures { result
            ≡ is_full limits.requests_per_line limits.lines (queue_of self.now) line }
    {
        self.queue.is_full(line, limits)
    }

    /// Whether a request waits for a line.
    pub fn any_waits(&self, line: u32) -> bool
        ensures { result ≡ nat_lt 0 (length (requests_on (queue_of self.now) line)) }
    {
        self.queue.any_on(line)
    }

    /// What a warp waits to do at a line, if it does.
    pub fn pending_access(&self, warp: u32, line: u32) -> Option<Access>
        ensures value { result ≡ pending_at (warp_rows self.now) (queue_of self.now) warp line }
        ensures room { has_room_for (warp_row self.now warp) result ≡ true }
        ensures on_time { IfSome result (λ _. (warp_row self.now warp).stamp ≤ last_stamp) }
    {
        let Phase::Waiting = self.phase(warp) else {
            return None;
        };
        let request = self.request_of(warp)?;
        if request.line != line {
            return None;
        }
        Some(request.access)
    }

    /// Sets a warp's phase and stamp, and empties its log.
    fn reset(&mut self, warp: u32, phase: Phase, stamp: u64)
        requires free { is_waiting (warp_row self.old warp).phase ≡ false }
        requires stamp { stamp ≤ highest_stamp_in phase }
        requires next { next_stamp_in phase ≤ highest_stamp }
        ensures warp_rows { warp_rows self.new ≡ slice_set (warp_rows self.old) warp
            (record { phase = phase; stamp = stamp; log = [] }) }
        ensures queue { queue_of self.new ≡ queue_of self.old }
    {
        if let Some(row) = self.rows.get_mut(warp as usize) {
            row.reset(phase, stamp);
        }
    }

    /// Opens a transaction with an empty log.
    pub(crate) fn open(&mut self, warp: u32)
        requires free { is_waiting (warp_row self.old warp).phase ≡ false }
        requires on_time { (warp_row self.old warp).stamp ≤ last_stamp }
        ensures warp_rows { warp_rows self.new ≡ slice_set (warp_rows self.old) warp
            (open_row (warp_row self.old warp).stamp) }
        ensures queue { queue_of self.new ≡ queue_of self.old }
    {
        let stamp = self.stamp(warp);
        self.reset(warp, Phase::Open, stamp);
    }

    /// Ends a transaction: the warp is idle at a stamp, with an empty log.
    pub(crate) fn make_idle(&mut self, warp: u32, stamp: u64)
        requires free { is_waiting (warp_row self.old warp).phase ≡ false }
        requires bound { stamp ≤ highest_stamp }
        ensures warp_rows { warp_rows self.new
            ≡ slice_set (warp_rows self.old) warp (idle_row stamp) }
        ensures queue { queue_of self.new ≡ queue_of self.old }
    {
        self.reset(warp, Phase::Idle, stamp);
    }

    /// Sets what a warp is doing.
    fn set_phase(&mut self, warp: u32, phase: Phase)
        requires none { is_some (request_of (queue_of self.old) warp) ≡ false }
        requires stamp { (warp_row self.old warp).stamp ≤ highest_stamp_in phase }
        requires next { next_stamp_in phase ≤ highest_stamp }
        ensures warp_rows { warp_rows self.new ≡ slice_set (warp_rows self.old) warp
            (row_in_phase (warp_row self.old warp) phase) }
        ensures queue { queue_of self.new ≡ queue_of self.old }
    {
        if let Some(row) = self.rows.get_mut(warp as usize) {
            row.set_phase(phase);
        }
    }

    /// Opens a warp whose outcome was fetched, so that its transaction goes on.
    pub(crate) fn resume(&mut self, warp: u32)
        requires { is_settled (warp_row self.old warp).phase ≡ true }
        ensures warp_rows { warp_rows self.new ≡ slice_set (warp_rows self.old) warp
            (row_in_phase (warp_row self.old warp) Open) }
        ensures queue { queue_of self.new ≡ queue_of self.old }
    {
        self.set_phase(warp, Phase::Open);
    }

    /// Writes a log back to its warp's row.
    fn set_log(&mut self, warp: u32, log: Log)
        requires { is_waiting (warp_row self.old warp).phase ≡ false }
        ensures warp_rows { warp_rows self.new ≡ slice_set (warp_rows self.old) warp
            (record (warp_row self.old warp) { log = log }) }
        ensures queue { queue_of self.new ≡ queue_of self.old }
    {
        if let Some(row) = self.rows.get_mut(warp as usize) {
            row.set_log(log);
        }
    }

    /// Logs a store of an open warp.
    pub(crate) fn log_store(&mut self, warp: u32, store: Store)
        requires open { is_open (warp_row self.old warp).phase ≡ true }
        requires room { length (warp_row self.old warp).log < log_limit }
        ensures warp_rows { warp_rows self.new ≡ slice_set (warp_rows self.old) warp
            (row_with_store (warp_row self.old warp) store.line store.value) }
        ensures queue { queue_of self.new ≡ queue_of self.old }
    {
        let log = self.log(warp).push(store);
        self.set_log(warp, log);
    }

    /// Adds the request of an open warp at the end of the queue; the warp waits.
    pub(crate) fn wait(&mut self, request: Request)
        requires open { is_open (warp_row self.old request.warp).phase ≡ true }
        requires room { has_room (warp_row self.old request.warp) request.access ≡ true }
        ensures warp_rows { warp_rows self.new ≡ slice_set (warp_rows self.old) request.warp
            (row_in_phase (warp_row self.old request.warp) Waiting) }
        ensures queue { queue_of self.new ≡ queue_of self.old ++ request ∷ [] }
    {
        self.set_phase(request.warp, Phase::Waiting);
        self.queue.push(request);
    }

    /// Removes a waiting warp's request from the queue; the warp is open again.
    pub(crate) fn withdraw(&mut self, warp: u32)
        requires { is_waiting (warp_row self.old warp).phase ≡ true }
        ensures warp_rows { warp_rows self.new ≡ slice_set (warp_rows self.old) warp
            (row_in_phase (warp_row self.old warp) Open) }
        ensures queue { queue_of self.new ≡ queue_without (queue_of self.old) warp }
    {
        self.queue.remove(warp);
        self.set_phase(warp, Phase::Open);
    }

    /// Gives an open warp an outcome to fetch.
    pub(crate) fn settle(&mut self, warp: u32, outcome: Outcome)
        requires open { is_open (warp_row self.old warp).phase ≡ true }
        requires bound { next_stamp outcome ≤ highest_stamp }
        ensures warp_rows { warp_rows self.new ≡ slice_set (warp_rows self.old) warp
            (row_in_phase (warp_row self.old warp) (Settled outcome)) }
        ensures queue { queue_of self.new ≡ queue_of self.old }
    {
        self.set_phase(warp, Phase::Settled { outcome });
    }
}
