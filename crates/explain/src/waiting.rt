//! The waiting requests.
ghost use Rattle.std.specs.Prelude.{◌≡◌, IfOk};
ghost use Rattle.machine.specs.Meaning.{state};
ghost use Rattle.explain.specs.Waiting.{all_waiting};

use book::Book;
use machine::Machine;
use memory::Memory;
use protocol::limits::WARPS;
use rules::Request;
use std::alloc::{AllocError, Global};

/// The waiting requests, in the order of their warps' numbers.
#[tactic(auto, unfolding(crate::specs::Waiting::waiting_in))]
pub(crate) fn find_waiting<M: Memory, B: Book>(
    heap: Global,
    machine: &Machine<M, B>,
) -> Result<Vec<Request>, AllocError>
    ensures { IfOk result (λ v. v.items ≡ all_waiting (state M.at B.kind B.model machine.now)) }
{
    (0..WARPS)
        .filter_map(|warp| machine.request_of(warp))
        .collect(heap)
}
