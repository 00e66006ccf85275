//! A call's row, with its note.
ghost use Rattle.std.specs.Prelude.{◌≡◌, IfOk, OnOk, string_bytes};
ghost use Rattle.rules.specs.Steps.{step};
ghost use Rattle.machine.specs.Meaning.{state, policy_of};
ghost use Rattle.listing.specs.Rows.{call_row};
ghost use Rattle.explain.specs.Notes.{AddsRow};

use crate::call::{CallFacts, call_with_facts};
use crate::note::add_note;
use book::Book;
use listing::text::add_call_row;
use machine::Machine;
use memory::Memory;
use protocol::Call;
use std::alloc::{AllocError, Global};

/// Makes a call of the machine, and adds its row and a note to the text: what the call means, what
/// it found and what it left. If memory runs out, the text is lost.
pub fn add_row<M: Memory, B: Book>(
    heap: Global,
    text: String,
    machine: &mut Machine<M, B>,
    place: u64,
    call: Call,
) -> Result<String, AllocError>
    ensures after { OnOk result (state M.at B.kind B.model machine.new
        ≡ (step (policy_of B.kind machine.old)
        (state M.at B.kind B.model machine.old) call).machine) }
    ensures text { IfOk result (λ t. AddsRow
        (call_row place call
        (step (policy_of B.kind machine.old) (state M.at B.kind B.model machine.old) call).answer)
        (string_bytes text) (string_bytes t)) }
{
    let facts = call_with_facts(heap, machine, call)?;
    add_facts(heap, text, place, &facts)
}

// Adds the row of a call that has been made, and a note of its facts.
fn add_facts(
    heap: Global,
    mut text: String,
    place: u64,
    facts: &CallFacts,
) -> Result<String, AllocError>
    ensures { IfOk result (λ t. AddsRow (call_row place facts.now.call facts.now.reply)
        (string_bytes text) (string_bytes t)) }
{
    add_call_row(&mut text, place, facts.call, facts.reply)?;
    add_note(heap, text, facts)
}
