//! Loads and stores that go on, and the retries of those that waited.
ghost use Rattle.std.specs.Prelude.{◌≡◌, ◌<◌, ◌≤◌, true};
ghost use Rattle.protocol.specs.Limits.{line_limit};
ghost use Rattle.rules.specs.State.{is_waiting};
ghost use Rattle.rules.specs.Ending.{after_settling, after_withdrawal};
ghost use Rattle.rules.specs.Serving.{served_on_free_line, served_on_own_line};
ghost use Rattle.machine.specs.Phases.{highest_stamp, next_stamp, is_open};
ghost use Rattle.machine.specs.Warps.{warp_row, has_room};
ghost use Rattle.machine.specs.Meaning.{state, policy_of};
ghost use Rattle.machine.specs.CallParts.{machine_after_turn, machine_after_turns};
ghost use Rattle.machine.specs.CallParts.{after_serving, with_outcome};

use crate::log::Store;
use crate::machine::Machine;
use book::Book;
use memory::Memory;
use protocol::Outcome;
use rules::{Access, Request, Verdict};

impl<M: Memory, B: Book> Machine<M, B> {
    /// On a line that is not reserved: a load gives the memory's value, a store reserves the line.
    pub(crate) fn serve(&mut self, request: Request) -> Outcome
        requires inside { request.line < line_limit }
        requires open { is_open (warp_row self.old.warps request.warp).phase ≡ true }
        requires room { has_room (warp_row self.old.warps request.warp) request.access ≡ true }
        ensures after { state M.at B.kind B.model self.new
            ≡ (served_on_free_line (state M.at B.kind B.model self.old) request.warp request.line
            request.access).machine }
        ensures answer { result
            ≡ (served_on_free_line (state M.at B.kind B.model self.old) request.warp request.line
            request.access).outcome }
        ensures memory { self.new.memory ≡ self.old.memory }
    {
        let Request { warp, line, access } = request;
        match access {
            Access::Read => {
                let value = self.memory_value(line);
                self.note_read(warp, line);
                Outcome::Value { value }
            }
            Access::Write { value } => {
                self.reserve(warp, line);
                self.warps.log_store(warp, Store { line, value });
                Outcome::Stored
            }
        }
    }

    /// On a line that is reserved for the warp itself: a load gives the last value that it logged
    /// there, a store is counted.
    pub(crate) fn serve_own(&mut self, request: Request) -> Outcome
        requires inside { request.line < line_limit }
        requires open { is_open (warp_row self.old.warps request.warp).phase ≡ true }
        requires room { has_room (warp_row self.old.warps request.warp) request.access ≡ true }
        ensures after { state M.at B.kind B.model self.new
            ≡ (served_on_own_line (state M.at B.kind B.model self.old) request.warp
            request.line request.access).machine }
        ensures answer { result
            ≡ (served_on_own_line (state M.at B.kind B.model self.old) request.warp
            request.line request.access).outcome }
        ensures memory { self.new.memory ≡ self.old.memory }
    {
        let Request { warp, line, access } = request;
        match access {
            Access::Read => {
                let value = self.own_value(warp, line);
                self.note_read(warp, line);
                Outcome::Value { value }
            }
            Access::Write { value } => {
                let _ = self.book.add(line);
                self.warps.log_store(warp, Store { line, value });
                Outcome::Stored
            }
        }
    }

    /// Removes a warp's request from the queue; the warp is open again.
    fn withdraw(&mut self, warp: u32)
        requires { is_waiting (warp_row self.old.warps warp).phase ≡ true }
        ensures after { state M.at B.kind B.model self.new
            ≡ after_withdrawal (state M.at B.kind B.model self.old) warp }
        ensures memory { self.new.memory ≡ self.old.memory }
    {
        self.warps.withdraw(warp);
    }

    /// Gives an open warp an outcome to fetch.
    fn settle(&mut self, warp: u32, outcome: Outcome)
        requires open { is_open (warp_row self.old.warps warp).phase ≡ true }
        requires bound { next_stamp outcome ≤ highest_stamp }
        ensures after { state M.at B.kind B.model self.new
            ≡ with_outcome (state M.at B.kind B.model self.old) warp outcome }
        ensures memory { self.new.memory ≡ self.old.memory }
    {
        self.warps.settle(warp, outcome);
    }

    /// Settles a request that waits. Its warp keeps its stamp until it fetches the outcome.
    fn withdraw_and_settle(&mut self, warp: u32, outcome: Outcome)
        requires waiting { is_waiting (warp_row self.old.warps warp).phase ≡ true }
        requires bound { next_stamp outcome ≤ highest_stamp }
        ensures after { state M.at B.kind B.model self.new
            ≡ after_settling (state M.at B.kind B.model self.old) warp outcome }
        ensures memory { self.new.memory ≡ self.old.memory }
    {
        self.withdraw(warp);
        self.settle(warp, outcome);
    }

    /// Serves a request that waited as any other, and settles it.
    fn serve_waiting(&mut self, request: Request)
        requires inside { request.line < line_limit }
        requires waiting { is_waiting (warp_row self.old.warps request.warp).phase ≡ true }
        requires room { has_room (warp_row self.old.warps request.warp) request.access ≡ true }
        ensures after { state M.at B.kind B.model self.new
            ≡ after_serving (state M.at B.kind B.model self.old) request.warp request.line
            request.access }
        ensures memory { self.new.memory ≡ self.old.memory }
    {
        self.withdraw(request.warp);
        let outcome = self.serve(request);
        self.settle(request.warp, outcome);
    }

    /// Retries the request of a warp, if it waits for the line.
    fn retry_in_turn(&mut self, line: u32, warp: u32)
        requires { line < line_limit }
        ensures after { state M.at B.kind B.model self.new
            ≡ machine_after_turn line (state M.at B.kind B.model self.old) warp }
        ensures memory { self.new.memory ≡ self.old.memory }
    {
        let Some(access) = self.warps.pending_access(warp, line) else {
            return;
        };
        let request = Request { warp, line, access };
        match self.encounter(request).retry_verdict() {
            Verdict::Gone { cause, next } => self.withdraw_and_settle(
                warp,
                Outcome::Gone { cause, next },
            ),
            Verdict::GoOn => self.serve_waiting(request),
            Verdict::OwnLine | Verdict::MustWait => {}
        }
    }

    /// Retries the requests that wait for a line, in turn.
    fn retry_all_in_turn(&mut self, line: u32)
        requires { line < line_limit }
        ensures after { state M.at B.kind B.model self.new
            ≡ machine_after_turns (policy_of B.kind self.old)
            (state M.at B.kind B.model self.old) line }
        ensures memory { self.new.memory ≡ self.old.memory }
    {
        let turns = self.warps.turns(line);
        for warp in turns.as_slice() {
            self.retry_in_turn(line, *warp);
        }
    }

    /// Retries the requests that wait for a line. If none waits, no order is computed.
    pub(crate) fn retry_line(&mut self, line: u32)
        requires { line < line_limit }
        ensures after { state M.at B.kind B.model self.new
            ≡ machine_after_turns (policy_of B.kind self.old)
            (state M.at B.kind B.model self.old) line }
        ensures memory { self.new.memory ≡ self.old.memory }
    {
        if self.warps.any_waits(line) {
            self.retry_all_in_turn(line);
        }
    }
}
