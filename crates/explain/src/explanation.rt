//! From the bytes of a calls file to its explanation.
ghost use Rattle.std.specs.Prelude.{◌≡◌, IfOk, string_bytes};
ghost use Rattle.rules.specs.Runs.{run};
ghost use Rattle.machine.specs.Meaning.{state, policy_of};
ghost use Rattle.machine.specs.Running.{run_of};
ghost use Rattle.listing.specs.Listing.{run_text, listing_text};
ghost use Rattle.explain.specs.Notes.{without_notes, DropsNotes};
ghost use Rattle.explain.specs.Examples.{ByExample};

use crate::end::{add_damage, add_end};
use crate::row::add_row;
use book::Book;
use listing::{Script, ScriptWriter, write_text};
use machine::Machine;
use memory::Memory;
use protocol::Fault;
use std::alloc::{AllocError, Global};

/// The explanation of a calls file: its listing, and under each row, indented, why it is as it is.
/// The only error is that memory runs out.
#[tactic(auto, using(crate::proofs::Scan::drops_notes, crate::proofs::Examples::by_example))]
pub fn annotate(heap: Global, bytes: &[u8]) -> Result<String, AllocError>
    ensures listing { IfOk result (λ t. without_notes (string_bytes t) ≡ listing_text bytes.now) }

    // What it means to leave the notes out of a text: for every text, and by example.
    ensures drops { DropsNotes }
    ensures examples { ByExample }
{
    write_text(heap, bytes, &Annotator)
}

// Writes the listing with a note under each row.
#[derive(Clone, Copy)]
struct Annotator;

impl ScriptWriter for Annotator {
    ghost listing_in = { without_notes };

    fn write_script<M: Memory + Drop, B: Book + Drop>(
        &self,
        heap: Global,
        script: &Script<'_>,
        memory: M,
        book: B,
    ) -> Result<String, AllocError> {
        annotate_script(heap, script, memory, book)
    }

    #[tactic(auto, using(crate::proofs::RunRows::damage_complete))]
    fn write_damage(&self, heap: Global, fault: Fault) -> Result<String, AllocError> {
        add_damage(heap, String::new(heap), fault)
    }
}

/// The explanation of a run over any memory and any book.
pub fn annotate_script<M: Memory + Drop, B: Book + Drop>(
    heap: Global,
    script: &Script<'_>,
    memory: M,
    book: B,
) -> Result<String, AllocError>
    ensures { IfOk result (λ t. without_notes (string_bytes t) ≡ run_text
        (run_of B.kind (M.at memory) (B.model book) script.now.stamps.now script.now.calls.now)
        script.now.calls.now script.now.fault script.now.lines) }
{
    let (machine, _) = Machine::make(memory, book, script.stamps);
    annotate_calls(heap, script, machine)
}

// The explanation of the script's calls, made of a machine.
#[tactic(auto, using(crate::proofs::RunRows::lacks_every_row))]
fn annotate_calls<M: Memory + Drop, B: Book + Drop>(
    heap: Global,
    script: &Script<'_>,
    mut machine: Machine<M, B>,
) -> Result<String, AllocError>
    ensures { IfOk result (λ t. without_notes (string_bytes t) ≡ run_text
        (run (policy_of B.kind machine) (state M.at B.kind B.model machine) script.now.calls.now)
        script.now.calls.now script.now.fault script.now.lines) }
{
    let mut text = String::new(heap);
    for (i, call) in script.calls.iter().enumerate() {
        text = add_row(heap, text, &mut machine, i as u64 + 1, *call)?;
    }
    add_end(heap, text, &machine, script.fault, script.lines)
}
