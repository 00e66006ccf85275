//! A memory made of the caller's 32-bit words.
ghost use Rattle.std.specs.Prelude.{[], ◌∷◌};
ghost use Rattle.memory.specs.Lines.{word_lines};

use crate::memory::{Memory, no_such_line};
use protocol::Fault;

/// The caller's words, line 0 first.
#[derive(Drop)]
pub struct WordMemory<'a> {
    pub words: &'a mut [u32],
}

impl<'a> Memory for WordMemory<'a> {
    ghost at = { λ m. word_lines m.words.now };

    ghost lent = { λ m. m.words.ghost_name ∷ [] };

    ghost spare = { λ _. [] };

    fn read(&self, line: u32) -> Result<u32, Fault> {
        let word = self.words.get(line as usize).copied();
        word.ok_or(no_such_line(line))
    }

    fn write(&mut self, line: u32, value: u32) -> Result<(), Fault> {
        let place = line as usize;
        if place >= self.words.len() {
            return Err(no_such_line(line));
        }
        self.words[place] = value;
        Ok(())
    }
}
