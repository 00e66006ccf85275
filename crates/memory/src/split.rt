//! Two memories joined into one.
ghost use Rattle.std.specs.Prelude.{◌++◌};
ghost use Rattle.memory.specs.Lines.{split_lines};

use crate::memory::Memory;
use protocol::Fault;

/// Two memories of any kind: the first has the even lines, the second the odd lines.
#[derive(Drop)]
pub struct SplitMemory<E, O> {
    pub even: E,
    pub odd: O,
}

impl<E: Memory, O: Memory> Memory for SplitMemory<E, O> {
    ghost at = { λ m. split_lines (E.at m.even) (O.at m.odd) };

    ghost lent = { λ m. E.lent m.even ++ O.lent m.odd };

    ghost spare = { λ m. E.spare m.even ++ O.spare m.odd };

    fn read(&self, line: u32) -> Result<u32, Fault> {
        let value = if line % 2 == 0 {
            self.even.read(line / 2)
        } else {
            self.odd.read((line - 1) / 2)
        };
        value.map_err(|fault| fault.with_number(u64::from(line)))
    }

    fn write(&mut self, line: u32, value: u32) -> Result<(), Fault> {
        let done = if line % 2 == 0 {
            self.even.write(line / 2, value)
        } else {
            self.odd.write((line - 1) / 2, value)
        };
        done.map_err(|fault| fault.with_number(u64::from(line)))
    }
}
