//! Refusals. Of several, the one with the lowest number is reported.
ghost use Rattle.std.specs.Prelude.{◌≡◌, length, nat_lt};
ghost use Rattle.protocol.specs.declared.fault.Refusal.TheVariants.{NoSuchWarp, NoSuchLine};
ghost use Rattle.rules.specs.Refusals.{idle_refusal, open_refusal, pending_refusal, phase_refusal};
ghost use Rattle.rules.specs.Refusals.{refusal_fault, fault_unless, has_line};
ghost use Rattle.rules.specs.Refusals.{number_fault, fault_of};
ghost use Rattle.machine.specs.Warps.{warp_rows, warp_row};
ghost use Rattle.machine.specs.Meaning.{state};
ghost use Rattle.machine.specs.CallParts.{as_result, room_fault, clock_fault, warp_fault};

use crate::machine::Machine;
use book::Book;
use memory::{Memory, no_such_line};
use protocol::limits::{LAST_STAMP, LINES, STORES};
use protocol::{Call, Fault, Op, Refusal};
use rules::Phase;

/// Why an idle warp is refused an operation, if it is.
fn idle_refuses(op: Op) -> Option<Refusal>
    ensures { result ≡ idle_refusal op }
{
    match op {
        Op::Begin => None,
        Op::Load { .. } | Op::Store { .. } | Op::Commit | Op::Drop | Op::Fetch => {
            Some(Refusal::WarpIdle)
        }
    }
}

/// Why an open warp is refused an operation, if it is.
fn open_refuses(op: Op) -> Option<Refusal>
    ensures { result ≡ open_refusal op }
{
    match op {
        Op::Begin => Some(Refusal::WarpNotIdle),
        Op::Load { .. } | Op::Store { .. } | Op::Commit | Op::Drop => None,
        Op::Fetch => Some(Refusal::NothingToFetch),
    }
}

/// Why a warp is refused an operation while it waits, or has an outcome to fetch.
fn pending_refuses(op: Op) -> Option<Refusal>
    ensures { result ≡ pending_refusal op }
{
    match op {
        Op::Begin => Some(Refusal::WarpNotIdle),
        Op::Load { .. } | Op::Store { .. } | Op::Commit | Op::Drop => Some(Refusal::OutcomePending),
        Op::Fetch => None,
    }
}

/// Why a warp in a phase is refused an operation, if it is.
fn phase_refuses(phase: Phase, op: Op) -> Option<Refusal>
    ensures { result ≡ phase_refusal phase op }
{
    match phase {
        Phase::Idle => idle_refuses(op),
        Phase::Open => open_refuses(op),
        Phase::Waiting | Phase::Settled { .. } => pending_refuses(op),
    }
}

impl<M: Memory, B: Book> Machine<M, B> {
    /// Checks that the machine has the warp.
    fn check_warp(&self, warp: u32) -> Result<(), Fault>
        ensures { result ≡ as_result
            (fault_unless (nat_lt warp (length (warp_rows self.now.warps))) NoSuchWarp warp) }
    {
        if warp as usize >= self.warps.len() {
            return Err(Fault::in_call(Refusal::NoSuchWarp, u64::from(warp)));
        }
        Ok(())
    }

    /// Checks that the warp may ask for this in its phase.
    fn check_phase(&self, call: Call) -> Result<(), Fault>
        ensures { result ≡ as_result
            (refusal_fault (phase_refusal (warp_row self.now.warps call.warp).phase call.op)
            call.warp) }
    {
        match phase_refuses(self.warps.phase(call.warp), call.op) {
            Some(why) => Err(Fault::in_call(why, u64::from(call.warp))),
            None => Ok(()),
        }
    }

    /// Checks that the memory has the line, and that a book can number it.
    fn check_line(&self, line: u32) -> Result<(), Fault>
        ensures { result ≡ as_result
            (fault_unless (has_line (state M.at B.kind B.model self.now) line) NoSuchLine line) }
    {
        if line >= LINES {
            return Err(no_such_line(line));
        }
        self.memory.read(line)?;
        Ok(())
    }

    /// Checks that the warp's log has room for one more store.
    fn check_room(&self, warp: u32) -> Result<(), Fault>
        ensures { result ≡ as_result (room_fault (warp_row self.now.warps warp)) }
    {
        let stored = self.warps.stored_count(warp);
        if stored >= STORES {
            return Err(Fault::in_call(Refusal::LogFull, stored as u64));
        }
        Ok(())
    }

    /// Checks that the warp's stamp is not past the end of the clock.
    fn check_clock(&self, warp: u32) -> Result<(), Fault>
        ensures { result ≡ as_result (clock_fault (warp_row self.now.warps warp)) }
    {
        let stamp = self.warps.stamp(warp);
        if stamp > u64::from(LAST_STAMP) {
            return Err(Fault::in_call(Refusal::ClockSpent, stamp));
        }
        Ok(())
    }

    /// Checks the line, the room in the log, or the clock, as the operation needs.
    fn check_number(&self, call: Call) -> Result<(), Fault>
        ensures { result ≡ as_result
            (number_fault (state M.at B.kind B.model self.now) call.warp call.op) }
    {
        match call.op {
            Op::Begin => self.check_clock(call.warp),
            Op::Load { line } => self.check_line(line),
            Op::Store { line, .. } => {
                self.check_line(line)?;
                self.check_room(call.warp)
            }
            Op::Commit | Op::Drop | Op::Fetch => Ok(()),
        }
    }

    /// All checks of a warp that the machine has.
    fn check_call_of_warp(&self, call: Call) -> Result<(), Fault>
        ensures { result ≡ as_result
            (warp_fault (state M.at B.kind B.model self.now) call.warp call.op) }
    {
        self.check_phase(call)?;
        self.check_number(call)
    }

    /// All checks, in the order of the refusals' numbers.
    pub(crate) fn check(&self, call: Call) -> Result<(), Fault>
        ensures { result ≡ as_result
            (fault_of (state M.at B.kind B.model self.now) call) }
    {
        self.check_warp(call.warp)?;
        self.check_call_of_warp(call)
    }
}
