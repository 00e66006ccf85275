//! Loads, stores and fetches.
ghost use Rattle.std.specs.Prelude.{◌≡◌, ◌<◌, ◌≤◌, true, false, Ok};
ghost use Rattle.protocol.specs.Limits.{line_limit};
ghost use Rattle.protocol.specs.declared.answer.Answer.TheVariants.{Gone};
ghost use Rattle.rules.specs.Access.{line_state};
ghost use Rattle.rules.specs.Ending.{after_end};
ghost use Rattle.rules.specs.State.{is_waiting, time_of};
ghost use Rattle.rules.specs.Steps.{access_step, fetched_step, fetch_step, verdict_at};
ghost use Rattle.rules.specs.declared.state.Phase.TheVariants.{Settled};
ghost use Rattle.machine.specs.Phases.{highest_stamp, next_stamp, is_open};
ghost use Rattle.machine.specs.Warps.{warp_row, has_room};
ghost use Rattle.machine.specs.Meaning.{state, policy_of};
ghost use Rattle.machine.specs.CallParts.{wait_step, with_request, wait_verdict};

use crate::machine::Machine;
use crate::queue::QueueLimits;
use crate::verdict::Encounter;
use book::Book;
use memory::Memory;
use protocol::limits::{LINE_ROOM, QUEUE_ROOM};
use protocol::{Answer, Cause, Outcome};
use rules::{Phase, Request, Verdict};

/// The product's limits of the queue.
const QUEUE_LIMITS: QueueLimits = QueueLimits {
    requests_per_line: LINE_ROOM,
    lines: QUEUE_ROOM,
};

impl<M: Memory, B: Book> Machine<M, B> {
    /// A request with its line and the time of its transaction.
    pub(crate) fn encounter(&self, request: Request) -> Encounter
        ensures access { result.access ≡ request.access }
        ensures line { result.line ≡ line_state B.kind (B.model self.now.book) request.line }
        ensures time { result.time ≡ time_of (state M.at B.kind B.model self.now) request.warp }
    {
        Encounter {
            access: request.access,
            line: self.line_state(request.line),
            time: self.time(request.warp),
        }
    }

    /// Ends a transaction that is gone; its warp restarts at the next stamp.
    fn end_as_gone(&mut self, warp: u32, cause: Cause, next: u64) -> Answer
        requires free { is_waiting (warp_row self.old.warps warp).phase ≡ false }
        requires bound { next ≤ highest_stamp }
        ensures after { state M.at B.kind B.model self.new
            ≡ (after_end (policy_of B.kind self.old)
            (state M.at B.kind B.model self.old) warp next).machine }
        ensures answer { result ≡ Gone cause next }
        ensures memory { self.new.memory ≡ self.old.memory }
    {
        self.end(warp, next);
        Answer::Gone { cause, next }
    }

    /// Adds a request to the queue. The book is not changed yet.
    fn join_queue(&mut self, request: Request)
        requires open { is_open (warp_row self.old.warps request.warp).phase ≡ true }
        requires room { has_room (warp_row self.old.warps request.warp) request.access ≡ true }
        ensures after { state M.at B.kind B.model self.new
            ≡ with_request (state M.at B.kind B.model self.old) request }
        ensures memory { self.new.memory ≡ self.old.memory }
    {
        self.warps.wait(request);
    }

    /// The limits of the queue.
    fn queue_limits(&self) -> QueueLimits
        ensures line { result.requests_per_line ≡ (policy_of B.kind self.now).line_room }
        ensures queue { result.lines ≡ (policy_of B.kind self.now).queue_room }
    {
        QUEUE_LIMITS
    }

    /// A load or a store that must wait. If the queue is full for its line, the transaction is
    /// gone, and restarts at its own stamp.
    fn wait_or_end(&mut self, request: Request) -> Answer
        requires open { is_open (warp_row self.old.warps request.warp).phase ≡ true }
        requires room { has_room (warp_row self.old.warps request.warp) request.access ≡ true }
        ensures after { state M.at B.kind B.model self.new
            ≡ (wait_step (policy_of B.kind self.old)
            (state M.at B.kind B.model self.old) request.warp request.line request.access).machine }
        ensures answer { Ok result
            ≡ (wait_step (policy_of B.kind self.old)
            (state M.at B.kind B.model self.old) request.warp request.line request.access).answer }
        ensures memory { self.new.memory ≡ self.old.memory }
    {
        if self.warps.is_full(request.line, self.queue_limits()) {
            let stamp = self.warps.stamp(request.warp);
            return self.end_as_gone(request.warp, Cause::QueueFull, stamp);
        }
        self.join_queue(request);
        Answer::Wait
    }

    /// The verdict on a load or a store now, by the access steps and the room in the queue.
    pub fn verdict(&self, request: Request) -> Verdict
        ensures { result
            ≡ verdict_at (policy_of B.kind self.now)
            (state M.at B.kind B.model self.now) request.warp request.line
            request.access }
    {
        match self.encounter(request).access_verdict() {
            Verdict::OwnLine => Verdict::OwnLine,
            Verdict::Gone { cause, next } => Verdict::Gone { cause, next },
            Verdict::MustWait => self.wait_verdict(request),
            Verdict::GoOn => Verdict::GoOn,
        }
    }

    /// The verdict on a request that must wait, by the room in the queue.
    fn wait_verdict(&self, request: Request) -> Verdict
        ensures { result
            ≡ wait_verdict (policy_of B.kind self.now)
            (state M.at B.kind B.model self.now) request.warp request.line }
    {
        if !self.warps.is_full(request.line, self.queue_limits()) {
            return Verdict::MustWait;
        }
        Verdict::Gone {
            cause: Cause::QueueFull,
            next: self.warps.stamp(request.warp),
        }
    }

    /// A load or a store of an open warp.
    pub(crate) fn access(&mut self, request: Request) -> Answer
        requires inside { request.line < line_limit }
        requires open { is_open (warp_row self.old.warps request.warp).phase ≡ true }
        requires room { has_room (warp_row self.old.warps request.warp) request.access ≡ true }
        ensures after { state M.at B.kind B.model self.new
            ≡ (access_step (policy_of B.kind self.old)
            (state M.at B.kind B.model self.old) request.warp request.line request.access).machine }
        ensures answer { Ok result
            ≡ (access_step (policy_of B.kind self.old)
            (state M.at B.kind B.model self.old) request.warp request.line request.access).answer }
        ensures memory { self.new.memory ≡ self.old.memory }
    {
        match self.encounter(request).access_verdict() {
            Verdict::OwnLine => self.serve_own(request).into(),
            Verdict::Gone { cause, next } => self.end_as_gone(request.warp, cause, next),
            Verdict::MustWait => self.wait_or_end(request),
            Verdict::GoOn => self.serve(request).into(),
        }
    }

    /// Delivers a settled outcome. After a value or a store the warp is open again; a transaction
    /// that is gone ends.
    fn deliver(&mut self, warp: u32, outcome: Outcome) -> Answer
        requires settled { (warp_row self.old.warps warp).phase ≡ Settled outcome }
        requires bound { next_stamp outcome ≤ highest_stamp }
        ensures after { state M.at B.kind B.model self.new
            ≡ (fetched_step (policy_of B.kind self.old)
            (state M.at B.kind B.model self.old) warp outcome).machine }
        ensures answer { Ok result
            ≡ (fetched_step (policy_of B.kind self.old)
            (state M.at B.kind B.model self.old) warp outcome).answer }
        ensures memory { self.new.memory ≡ self.old.memory }
    {
        match outcome {
            Outcome::Value { .. } | Outcome::Stored => {
                self.warps.resume(warp);
                outcome.into()
            }
            Outcome::Gone { cause, next } => self.end_as_gone(warp, cause, next),
        }
    }

    /// The outcome of a load or a store that had to wait, once it is settled.
    pub(crate) fn fetch_outcome(&mut self, warp: u32) -> Answer
        ensures after { state M.at B.kind B.model self.new
            ≡ (fetch_step (policy_of B.kind self.old)
            (state M.at B.kind B.model self.old) warp
            (warp_row self.old.warps warp).phase).machine }
        ensures answer { Ok result
            ≡ (fetch_step (policy_of B.kind self.old)
            (state M.at B.kind B.model self.old) warp
            (warp_row self.old.warps warp).phase).answer }
        ensures memory { self.new.memory ≡ self.old.memory }
    {
        match self.warps.phase(warp) {
            Phase::Settled { outcome } => self.deliver(warp, outcome),
            Phase::Idle | Phase::Open | Phase::Waiting => Answer::Wait,
        }
    }
}
