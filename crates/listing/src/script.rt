//! The script of a run, and the listing of that run.
ghost use Rattle.std.specs.Prelude.{◌≡◌, IfOk, string_bytes};
ghost use Rattle.machine.specs.Running.{run_of};
ghost use Rattle.listing.specs.Listing.{run_text};

use crate::row::Tail;
use crate::rows::Rows;
use book::Book;
use machine::run_to_vec;
use memory::Memory;
use protocol::{Call, Fault};
use std::alloc::{AllocError, Global};

/// What a machine is to do: the first stamps and the calls, what is wrong after the calls, and how
/// many lines are listed at the end.
#[derive(Clone, Copy)]
pub struct Script<'a> {
    pub stamps: &'a [u32],
    pub calls: &'a [Call],
    pub fault: Option<Fault>,
    pub lines: u32,
}

impl Script<'_> {
    /// The listing of a run over any memory and any book.
    pub fn list<M: Memory + Drop, B: Book + Drop>(
        &self,
        heap: Global,
        memory: M,
        book: B,
    ) -> Result<String, AllocError>
        ensures { IfOk result (λ t. string_bytes t ≡ run_text
            (run_of B.kind (M.at memory) (B.model book) self.now.stamps.now self.now.calls.now)
            self.now.calls.now self.now.fault self.now.lines) }
    {
        let (ran, answers) = run_to_vec(heap, memory, book, self.stamps, self.calls)?;
        let mut rows = Rows::new(heap);
        rows.add_calls(self.calls, answers.as_slice())?;
        match self.fault {
            Some(fault) => rows.add(&Tail::of_damage(fault))?,
            None => rows.add_lines(&ran.machine, self.lines)?,
        }
        Ok(rows.into_text())
    }
}
