//! A call, with what it finds and what it leaves.
ghost use Rattle.std.specs.Prelude.{◌≡◌, IfOk, OnOk};
ghost use Rattle.rules.specs.Steps.{step};
ghost use Rattle.machine.specs.Meaning.{state, policy_of};
ghost use Rattle.explain.specs.Call.{AreFacts};

use crate::after::{After, facts_after};
use crate::before::{Before, facts_before};
use book::Book;
use machine::Machine;
use memory::Memory;
use protocol::{Answer, Call, Fault};
use std::alloc::{AllocError, Global};

/// A call that has been made: its answer or its refusal, what it found and what it left.
#[derive(Drop)]
pub struct CallFacts {
    pub call: Call,
    pub reply: Result<Answer, Fault>,
    pub before: Before,
    pub after: After,
}

/// Makes a call of the machine, and reads from the machine what the call found and what it left.
pub fn call_with_facts<M: Memory, B: Book>(
    heap: Global,
    machine: &mut Machine<M, B>,
    call: Call,
) -> Result<CallFacts, AllocError>
    ensures after { OnOk result (state M.at B.kind B.model machine.new
        ≡ (step (policy_of B.kind machine.old)
        (state M.at B.kind B.model machine.old) call).machine) }
    ensures facts { IfOk result
        (λ facts. AreFacts (policy_of B.kind machine.old)
        (state M.at B.kind B.model machine.old) call facts) }
{
    let before = facts_before(heap, machine, call)?;
    let reply = machine.call(call);
    let after = facts_after(heap, machine, before.waiting.as_slice())?;
    Ok(CallFacts {
        call,
        reply,
        before,
        after,
    })
}
