//! The trait of memories.
ghost use Rattle.std.specs.Prelude.{◌≡◌, ℕ, List};
ghost use Rattle.std.specs.Option.{ok_or};
ghost use Rattle.memory.specs.Lines.{Lines, lines_with, write_result, no_line};

use protocol::{Fault, Refusal};

/// A memory has some lines, each with a value.
pub trait Memory {
    // The lines that it has, and the value of each.
    ghost at: { Self → Lines };

    // The slices that it borrows, by their names in proofs. They show the lender what a slice holds
    // when the memory is dropped.
    ghost lent: { Self → List ℕ };

    // The bytes that it borrows besides its lines.
    ghost spare: { Self → List ℕ };

    /// The value of a line. Only a line that the memory does not have is refused.
    fn read(&self, line: u32) -> Result<u32, Fault>
        ensures { result ≡ ok_or (at self.now line) (no_line line) };

    /// Sets the value of one line. Only a line that the memory does not have is refused, and then
    /// nothing changes.
    fn write(&mut self, line: u32, value: u32) -> Result<(), Fault>
        ensures answer { result ≡ write_result (at self.old line) (no_line line) }
        ensures after { at self.new ≡ lines_with (at self.old) line value }
        ensures lender { lent self.new ≡ lent self.old }
        ensures untouched { spare self.new ≡ spare self.old };
}

/// The refusal of a line that the memory does not have.
pub fn no_such_line(line: u32) -> Fault
    ensures { result ≡ no_line line }
{
    Fault::in_call(Refusal::NoSuchLine, u64::from(line))
}
