//! What a call leaves: facts that are read from the machine after the call.
ghost use Rattle.std.specs.Prelude.{◌≡◌, IfOk};
ghost use Rattle.machine.specs.Meaning.{state};
ghost use Rattle.explain.specs.After.{IsAfter, settled_of, all_settled, wait_of, all_waits};

use crate::waiting::find_waiting;
use book::Book;
use machine::Machine;
use memory::Memory;
use protocol::Outcome;
use rules::Request;
use std::alloc::{AllocError, Global};

/// A request that is settled, and its outcome.
#[derive(Clone, Copy)]
pub struct Settled {
    pub warp: u32,
    pub line: u32,
    pub outcome: Outcome,
}

/// A waiting request, and the warp that has its line.
#[derive(Clone, Copy)]
pub struct Wait {
    pub warp: u32,
    pub line: u32,
    pub owner: Option<u32>,
}

/// What a call leaves.
#[derive(Drop)]
pub struct After {
    /// The requests that waited before the call and are settled now.
    pub settled: Vec<Settled>,
    /// The requests that wait now, in the order of their warps' numbers.
    pub waits: Vec<Wait>,
}

/// Reads what a call has left in a machine. The requests that waited before the call are given.
pub fn facts_after<M: Memory, B: Book>(
    heap: Global,
    machine: &Machine<M, B>,
    waited: &[Request],
) -> Result<After, AllocError>
    ensures { IfOk result
        (λ facts. IsAfter (state M.at B.kind B.model machine.now) waited.now facts) }
{
    Ok(After {
        settled: find_settled(heap, machine, waited)?,
        waits: find_waits(heap, machine)?,
    })
}

// The requests that waited before the call and are settled now.
fn find_settled<M: Memory, B: Book>(
    heap: Global,
    machine: &Machine<M, B>,
    waited: &[Request],
) -> Result<Vec<Settled>, AllocError>
    ensures { IfOk result (λ v. v.items
        ≡ all_settled (state M.at B.kind B.model machine.now) waited.now) }
{
    waited
        .iter()
        .filter_map(|request| settled_of(machine, *request))
        .collect(heap)
}

// A request with its outcome, if it is settled.
fn settled_of<M: Memory, B: Book>(machine: &Machine<M, B>, request: Request) -> Option<Settled>
    ensures { result ≡ settled_of (state M.at B.kind B.model machine.now) request }
{
    let Request { warp, line, .. } = request;
    let outcome = machine.outcome(warp)?;
    Some(Settled {
        warp,
        line,
        outcome,
    })
}

// The waiting requests, each with the warp that has its line.
fn find_waits<M: Memory, B: Book>(
    heap: Global,
    machine: &Machine<M, B>,
) -> Result<Vec<Wait>, AllocError>
    ensures { IfOk result (λ v. v.items
        ≡ all_waits (state M.at B.kind B.model machine.now)) }
{
    let waiting = find_waiting(heap, machine)?;
    waiting
        .iter()
        .map(|request| wait_of(machine, *request))
        .collect(heap)
}

// A waiting request, with the warp that has its line.
fn wait_of<M: Memory, B: Book>(machine: &Machine<M, B>, request: Request) -> Wait
    ensures { result ≡ wait_of (state M.at B.kind B.model machine.now) request }
{
    let Request { warp, line, .. } = request;
    Wait {
        warp,
        line,
        owner: machine.book().owner(line),
    }
}
