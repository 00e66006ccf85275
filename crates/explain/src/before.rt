//! What a call finds: facts that are read from the machine before the call.
ghost use Rattle.std.specs.Prelude.{◌≡◌, IfOk};
ghost use Rattle.machine.specs.Meaning.{state, policy_of};
ghost use Rattle.explain.specs.Before.{verdict_before, line_before, line_facts, IsBefore};

use crate::waiting::find_waiting;
use book::Book;
use machine::Machine;
use memory::Memory;
use protocol::{Call, Op};
use rules::{Access, Request, Verdict};
use std::alloc::{AllocError, Global};

/// What the book says of a line.
#[derive(Clone, Copy)]
pub struct LineFacts {
    pub line: u32,
    /// Its write stamp.
    pub written: u32,
    /// Its read mark, a pair of stamp and warp.
    pub read: (u32, u32),
    /// The number of stores that hold it.
    pub stores: u32,
    /// The warp that has it.
    pub owner: Option<u32>,
}

/// What a call finds.
#[derive(Drop)]
pub struct Before {
    /// The stamp of the call's warp.
    pub stamp: u64,
    /// The verdict of the access steps on a load or a store; none for other calls.
    pub verdict: Option<Verdict>,
    /// The line that the call names, or else the one that its warp waits for.
    pub line: Option<LineFacts>,
    /// The waiting requests, in the order of their warps' numbers.
    pub waiting: Vec<Request>,
}

/// Reads what a call will find in a machine.
pub fn facts_before<M: Memory, B: Book>(
    heap: Global,
    machine: &Machine<M, B>,
    call: Call,
) -> Result<Before, AllocError>
    ensures { IfOk result (λ facts. IsBefore (policy_of B.kind machine.now)
        (state M.at B.kind B.model machine.now) call facts) }
{
    Ok(Before {
        stamp: machine.stamp(call.warp),
        verdict: find_verdict(machine, call),
        line: find_line(machine, call),
        waiting: find_waiting(heap, machine)?,
    })
}

// The verdict of the access steps on a load or a store; none for other calls.
fn find_verdict<M: Memory, B: Book>(machine: &Machine<M, B>, call: Call) -> Option<Verdict>
    ensures { result
        ≡ verdict_before (policy_of B.kind machine.now) (state M.at B.kind B.model machine.now) call }
{
    let Call { warp, op } = call;
    match op {
        Op::Load { line } => Some(machine.verdict(Request {
            warp,
            line,
            access: Access::Read,
        })),
        Op::Store { line, value } => Some(machine.verdict(Request {
            warp,
            line,
            access: Access::Write { value },
        })),
        Op::Begin | Op::Commit | Op::Drop | Op::Fetch => None,
    }
}

// The line that a call names, or else the one that its warp waits for.
fn find_line<M: Memory, B: Book>(machine: &Machine<M, B>, call: Call) -> Option<LineFacts>
    ensures { result ≡ line_before (state M.at B.kind B.model machine.now) call }
{
    match call.op {
        Op::Load { line } | Op::Store { line, .. } => Some(line_facts(machine.book(), line)),
        Op::Begin | Op::Commit | Op::Drop | Op::Fetch => machine
            .request_of(call.warp)
            .map(|request| line_facts(machine.book(), request.line)),
    }
}

// What a book says of a line.
fn line_facts<B: Book>(book: &B, line: u32) -> LineFacts
    ensures { result ≡ line_facts B.kind (B.model book.now) line }
{
    LineFacts {
        line,
        written: book.write_stamp(line),
        read: book.read_mark(line),
        stores: book.stores(line),
        owner: book.owner(line),
    }
}
