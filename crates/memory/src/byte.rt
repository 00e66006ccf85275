//! A memory made of the caller's bytes.
ghost use Rattle.std.specs.Prelude.{[], ◌∷◌};
ghost use Rattle.memory.specs.Lines.{byte_lines, leftover_bytes};

use crate::memory::{Memory, no_such_line};
use protocol::Fault;

/// The caller's bytes, four to a line, least significant first. Up to three bytes left over at the
/// end are in no line.
#[derive(Drop)]
pub struct ByteMemory<'a> {
    pub bytes: &'a mut [u8],
}

impl<'a> Memory for ByteMemory<'a> {
    ghost at = { λ m. byte_lines m.bytes.now };

    ghost lent = { λ m. m.bytes.ghost_name ∷ [] };

    ghost spare = { λ m. leftover_bytes m.bytes.now };

    fn read(&self, line: u32) -> Result<u32, Fault> {
        let first = 4 * line as usize;
        match self.bytes.get(first..first + 4) {
            Some([a, b, c, d]) => Ok(u32::from_le_bytes([*a, *b, *c, *d])),
            _ => Err(no_such_line(line)),
        }
    }

    fn write(&mut self, line: u32, value: u32) -> Result<(), Fault> {
        let place = line as usize;
        if place >= self.bytes.len() / 4 {
            return Err(no_such_line(line));
        }
        let first = 4 * place;
        let [a, b, c, d] = value.to_le_bytes();
        self.bytes[first] = a;
        self.bytes[first + 1] = b;
        self.bytes[first + 2] = c;
        self.bytes[first + 3] = d;
        Ok(())
    }
}
