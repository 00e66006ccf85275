//! What can be asked of a machine.
ghost use Rattle.std.specs.Prelude.{◌≡◌, length, slice_get};
ghost use Rattle.std.specs.Option.{ok_or};
ghost use Rattle.memory.specs.Lines.{no_line};
ghost use Rattle.rules.specs.Access.{line_state};
ghost use Rattle.rules.specs.Queue.{request_of};
ghost use Rattle.rules.specs.State.{warp_row_of};
ghost use Rattle.machine.specs.Meaning.{state, memory_of, book_of, warps_of};
ghost use Rattle.machine.specs.Outcomes.{outcome_of};

use crate::log::Log;
use crate::machine::Machine;
use crate::warps::Warps;
use book::{Book, LineState};
use memory::Memory;
use protocol::{Fault, Outcome};
use rules::{Phase, Request};

/// The outcome that a phase holds.
fn outcome_of(phase: Phase) -> Option<Outcome>
    ensures { result ≡ outcome_of phase }
{
    match phase {
        Phase::Settled { outcome } => Some(outcome),
        Phase::Idle | Phase::Open | Phase::Waiting => None,
    }
}

impl<M: Memory, B: Book> Machine<M, B> {
    /// The number of warps.
    pub fn warp_count(&self) -> usize
        ensures { result ≡ length (state M.at B.kind B.model self.now).warp_rows }
    {
        self.warps.len()
    }

    /// What a warp is doing.
    pub fn phase(&self, warp: u32) -> Phase
        ensures { result ≡ (warp_row_of (state M.at B.kind B.model self.now) warp).phase }
    {
        self.warps.phase(warp)
    }

    /// A warp's stamp.
    pub fn stamp(&self, warp: u32) -> u64
        ensures { result ≡ (warp_row_of (state M.at B.kind B.model self.now) warp).stamp }
    {
        self.warps.stamp(warp)
    }

    /// What a warp has stored and not yet committed.
    pub fn log(&self, warp: u32) -> Log
        ensures { result ≡ (warp_row_of (state M.at B.kind B.model self.now) warp).log }
    {
        self.warps.log(warp)
    }

    /// The outcome that a warp may fetch.
    pub fn outcome(&self, warp: u32) -> Option<Outcome>
        ensures { result
            ≡ outcome_of (warp_row_of (state M.at B.kind B.model self.now) warp).phase }
    {
        outcome_of(self.warps.phase(warp))
    }

    /// The request of a warp that waits.
    pub fn request_of(&self, warp: u32) -> Option<Request>
        ensures { result ≡ request_of (state M.at B.kind B.model self.now).queue warp }
    {
        self.warps.request_of(warp)
    }

    /// The request at a place of the queue, counted from 0 in the order of arrival.
    pub fn request_at(&self, place: usize) -> Option<Request>
        ensures { result ≡ slice_get (state M.at B.kind B.model self.now).queue place }
    {
        self.warps.request_at(place)
    }

    /// The value of a line.
    pub fn value(&self, line: u32) -> Result<u32, Fault>
        ensures { result ≡ ok_or ((state M.at B.kind B.model self.now).lines line) (no_line line) }
    {
        self.memory.read(line)
    }

    /// The number of stores that hold a line reserved.
    pub fn stores(&self, line: u32) -> u32
        ensures { result ≡ B.kind.stores (state M.at B.kind B.model self.now).book line }
    {
        self.book.stores(line)
    }

    /// What the book says of a line, but for the number of stores.
    pub fn line_state(&self, line: u32) -> LineState
        ensures { result ≡ line_state B.kind (state M.at B.kind B.model self.now).book line }
    {
        self.book.line_state(line)
    }

    /// The latest stamp in the book.
    pub fn latest(&self) -> u32
        ensures { result ≡ B.kind.latest (state M.at B.kind B.model self.now).book }
    {
        self.book.latest()
    }

    /// The warps' table and the queue.
    pub fn warps(&self) -> &Warps
        ensures { result.now ≡ warps_of self.now }
    {
        &self.warps
    }

    /// The memory.
    pub fn memory(&self) -> &M
        ensures { result.now ≡ memory_of self.now }
    {
        &self.memory
    }

    /// The book.
    pub fn book(&self) -> &B
        ensures { result.now ≡ book_of self.now }
    {
        &self.book
    }
}
