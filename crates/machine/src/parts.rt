//! How the machine reads and changes its memory and its book.
ghost use Rattle.std.specs.Prelude.{◌≡◌, ◌≤◌, [], ◌∷◌, map};
ghost use Rattle.rules.specs.Ending.{with_lines_released};
ghost use Rattle.rules.specs.Serving.{memory_value, with_read_noted};
ghost use Rattle.rules.specs.State.{time_of};
ghost use Rattle.rules.specs.Steps.{lines_after_stores, with_log_written};
ghost use Rattle.machine.specs.Phases.{highest_stamp};
ghost use Rattle.machine.specs.Logs.{store_entry};
ghost use Rattle.machine.specs.Meaning.{state, loan};
ghost use Rattle.machine.specs.CallParts.{own_value, with_line_reserved};

use crate::log::Store;
use crate::machine::Machine;
use book::Book;
use memory::Memory;

/// Writes some stores to a memory, in order.
fn write_all<M: Memory>(memory: &mut M, stores: &[Store])
    ensures lines { M.at memory.new
        ≡ lines_after_stores (M.at memory.old) (map store_entry stores.now) }
    ensures lender { M.lent memory.new ≡ M.lent memory.old }
    ensures untouched { M.spare memory.new ≡ M.spare memory.old }
{
    for store in stores {
        let _ = memory.write(store.line, store.value);
    }
}

impl<M: Memory, B: Book> Machine<M, B> {
    /// The logical time of a warp's transaction.
    pub(crate) fn time(&self, warp: u32) -> (u64, u32)
        ensures value { result ≡ time_of (state M.at B.kind B.model self.now) warp }
        ensures bound { result.0 ≤ highest_stamp }
    {
        (self.warps.stamp(warp), warp)
    }

    /// The value of a line, or 0 if the memory lacks it.
    pub(crate) fn memory_value(&self, line: u32) -> u32
        ensures { result ≡ memory_value (state M.at B.kind B.model self.now) line }
    {
        self.memory.read(line).unwrap_or(0)
    }

    /// The last value that a warp logged for a line, or the line's value if it logged none.
    pub(crate) fn own_value(&self, warp: u32, line: u32) -> u32
        ensures { result ≡ own_value (state M.at B.kind B.model self.now) warp line }
    {
        let logged = self.warps.log(warp).latest(line);
        logged.unwrap_or_else(|| self.memory_value(line))
    }

    /// Notes a read of a line.
    pub(crate) fn note_read(&mut self, warp: u32, line: u32)
        ensures after { state M.at B.kind B.model self.new
            ≡ with_read_noted (state M.at B.kind B.model self.old) warp line }
        ensures memory { self.new.memory ≡ self.old.memory }
    {
        if let Ok(stamp) = u32::try_from(self.warps.stamp(warp)) {
            let _ = self.book.note(line, (stamp, warp));
        }
    }

    /// Reserves a line for a warp's transaction.
    pub(crate) fn reserve(&mut self, warp: u32, line: u32)
        ensures after { state M.at B.kind B.model self.new
            ≡ with_line_reserved (state M.at B.kind B.model self.old) warp line }
        ensures memory { self.new.memory ≡ self.old.memory }
    {
        if let Ok(stamp) = u32::try_from(self.warps.stamp(warp)) {
            let _ = self.book.reserve(line, (stamp, warp));
        }
    }

    /// Releases a line, without a retry.
    fn release(&mut self, line: u32)
        ensures after { state M.at B.kind B.model self.new
            ≡ with_lines_released (state M.at B.kind B.model self.old) (line ∷ []) }
        ensures memory { self.new.memory ≡ self.old.memory }
    {
        let _ = self.book.release(line);
    }

    /// Releases some lines in turn, without a retry.
    pub(crate) fn release_all(&mut self, lines: &[u32])
        ensures after { state M.at B.kind B.model self.new
            ≡ with_lines_released (state M.at B.kind B.model self.old) lines.now }
        ensures memory { self.new.memory ≡ self.old.memory }
    {
        for line in lines {
            self.release(*line);
        }
    }

    /// Writes a warp's log to memory, in the order of its stores.
    pub(crate) fn write_back(&mut self, warp: u32)
        ensures after { state M.at B.kind B.model self.new
            ≡ with_log_written (state M.at B.kind B.model self.old) warp }
        ensures loan { loan M.lent M.spare self.new ≡ loan M.lent M.spare self.old }
    {
        let log = self.warps.log(warp);
        write_all(&mut self.memory, log.stores());
    }
}
