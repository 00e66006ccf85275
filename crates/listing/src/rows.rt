//! The rows of a listing, one after another, as bytes. They become a text once, at the end.
ghost use Rattle.std.specs.Prelude.{◌≡◌, ◌++◌, [], OnOk, IsUtf8, string_bytes};
ghost use Rattle.listing.specs.Listing.{call_rows, line_row, mem_rows};

use crate::row::Tail;
use book::Book;
use machine::Machine;
use memory::Memory;
use protocol::{Answer, Call, Fault};
use std::alloc::{AllocError, Global};

/// The rows so far.
#[derive(Drop)]
pub(crate) struct Rows {
    bytes: Vec<u8>,
    ghost utf8: { ∥ IsUtf8 bytes.items ∥₁ },
}

impl Rows {
    ghost use Rattle.listing.specs.Tail.{tail};

    /// No rows.
    pub(crate) fn new(heap: Global) -> Rows
        ensures { result.bytes.items ≡ [] }
    {
        Rows {
            bytes: Vec::new(heap),
        }
    }

    /// Adds a row.
    pub(crate) fn add(&mut self, row: &Tail) -> Result<(), AllocError>
        ensures { OnOk result (self.new.bytes.items ≡ self.old.bytes.items ++ tail row.now) }
    {
        self.bytes.extend_from_slice(row.as_bytes())
    }

    /// Adds a row for each call with its answer or its refusal.
    pub(crate) fn add_calls(
        &mut self,
        calls: &[Call],
        answers: &[Result<Answer, Fault>],
    ) -> Result<(), AllocError>
        ensures { OnOk result (self.new.bytes.items
            ≡ self.old.bytes.items ++ call_rows 1 calls.now answers.now) }
    {
        let mut row = Tail::new();
        for (i, (call, answer)) in calls.iter().zip(answers).enumerate() {
            row.set_call(i as u64 + 1, call, answer);
            self.add(&row)?;
        }
        Ok(())
    }

    /// Adds a row for each line below a limit that the machine's memory has.
    pub(crate) fn add_lines<M: Memory, B: Book>(
        &mut self,
        machine: &Machine<M, B>,
        limit: u32,
    ) -> Result<(), AllocError>
        ensures { OnOk result (self.new.bytes.items
            ≡ self.old.bytes.items ++ mem_rows (M.at machine.now.memory) limit) }
    {
        let mut row = Tail::new();
        for line in 0..limit {
            self.add_line(&mut row, machine, line)?;
        }
        Ok(())
    }

    // Adds the row of a line, if the memory has it. `row` is the room to write it in.
    fn add_line<M: Memory, B: Book>(
        &mut self,
        row: &mut Tail,
        machine: &Machine<M, B>,
        line: u32,
    ) -> Result<(), AllocError>
        ensures { OnOk result (self.new.bytes.items
            ≡ self.old.bytes.items ++ line_row line (M.at machine.now.memory line)) }
    {
        match machine.value(line) {
            Ok(value) => {
                row.set_line(line, value);
                self.add(row)
            }
            Err(_) => Ok(()),
        }
    }

    /// The text of the rows.
    pub(crate) fn into_text(self) -> String
        ensures { string_bytes result ≡ self.bytes.items }
    {
        String::from_utf8(self.bytes).unwrap()
    }
}
