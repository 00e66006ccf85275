//! Makes a text about the run of a calls file, by any writer.
ghost use Rattle.std.specs.Prelude.{◌≡◌, ℕ, List, IfOk, string_bytes};
ghost use Rattle.machine.specs.Running.{run_of};
ghost use Rattle.listing.specs.Rows.{bad_row};
ghost use Rattle.listing.specs.Listing.{run_text, calls_file_text, listing_text};

use crate::script::Script;
use book::{Book, ExactBook};
use calls::{BookKind, CallsFile, ReadError, read};
use condensed::CondensedBook;
use memory::{Memory, WordMemory};
use protocol::Fault;
use std::alloc::{AllocError, Global};

/// Writes texts that have a listing in them. Its ghost member `listing_in` is the listing in a
/// text.
pub trait ScriptWriter {
    ghost listing_in: { List ℕ → List ℕ };

    /// A text about the run of a script over any memory and any book.
    fn write_script<M: Memory + Drop, B: Book + Drop>(
        &self,
        heap: Global,
        script: &Script<'_>,
        memory: M,
        book: B,
    ) -> Result<String, AllocError>
        ensures { IfOk result (λ t. listing_in (string_bytes t) ≡ run_text
            (run_of B.kind (M.at memory) (B.model book) script.now.stamps.now script.now.calls.now)
            script.now.calls.now script.now.fault script.now.lines) };

    /// A text about a file whose header is damaged.
    fn write_damage(&self, heap: Global, fault: Fault) -> Result<String, AllocError>
        ensures { IfOk result (λ t. listing_in (string_bytes t) ≡ bad_row fault) };
}

/// The text that a writer makes of a calls file. The only error is that memory runs out.
pub fn write_text<W: ScriptWriter>(
    heap: Global,
    bytes: &[u8],
    writer: &W,
) -> Result<String, AllocError>
    ensures { IfOk result (λ t. W.listing_in (string_bytes t) ≡ listing_text bytes.now) }
{
    match read(heap, bytes) {
        Ok(file) => write_file(heap, file, writer),
        Err(ReadError::Damaged(fault)) => writer.write_damage(heap, fault),
        Err(ReadError::NoMemory) => Err(AllocError),
    }
}

// The text of a file whose header is sound: its script is run over the book that it asks for.
fn write_file<W: ScriptWriter>(
    heap: Global,
    file: CallsFile,
    writer: &W,
) -> Result<String, AllocError>
    ensures { IfOk result (λ t. W.listing_in (string_bytes t) ≡ calls_file_text file) }
{
    let CallsFile {
        book,
        stamps,
        mut values,
        calls,
        fault,
    } = file;
    let script = Script {
        stamps: stamps.as_slice(),
        calls: calls.as_slice(),
        fault,
        lines: values.len() as u32,
    };
    let memory = WordMemory {
        words: values.as_mut_slice(),
    };
    match book {
        BookKind::Exact => writer.write_script(heap, &script, memory, ExactBook::new()),
        BookKind::Condensed => writer.write_script(heap, &script, memory, CondensedBook::new()),
    }
}
