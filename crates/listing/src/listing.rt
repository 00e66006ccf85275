//! From the bytes of a calls file to its listing.
ghost use Rattle.std.specs.Prelude.{◌≡◌, ◌+◌, IfOk, string_bytes};
ghost use Rattle.calls.specs.Front.{longest_file};
ghost use Rattle.listing.specs.Listing.{listing_text, FrontIsEnough};

use crate::script::Script;
use crate::text::add_bad_row;
use crate::writer::{ScriptWriter, write_text};
use book::Book;
use memory::Memory;
use protocol::Fault;
use std::alloc::{AllocError, Global};

/// The listing of a calls file. The only error is that memory runs out.
pub fn list(heap: Global, bytes: &[u8]) -> Result<String, AllocError>
    ensures { IfOk result (λ t. string_bytes t ≡ listing_text bytes.now) }
{
    write_text(heap, bytes, &Lister)
}

/// How many bytes to read: no byte past them matters. One more than the longest file has.
#[tactic(auto, using(crate::proofs::Fronts::front_listed))]
pub fn enough_bytes() -> usize
    ensures enough { FrontIsEnough result }
    ensures one_more { result ≡ longest_file + 1 }
{
    calls::enough_bytes()
}

// Writes the listing and nothing else.
#[derive(Clone, Copy)]
struct Lister;

impl ScriptWriter for Lister {
    ghost listing_in = { λ text. text };

    fn write_script<M: Memory + Drop, B: Book + Drop>(
        &self,
        heap: Global,
        script: &Script<'_>,
        memory: M,
        book: B,
    ) -> Result<String, AllocError> {
        script.list(heap, memory, book)
    }

    fn write_damage(&self, heap: Global, fault: Fault) -> Result<String, AllocError> {
        let mut text = String::new(heap);
        add_bad_row(&mut text, fault)?;
        Ok(text)
    }
}
