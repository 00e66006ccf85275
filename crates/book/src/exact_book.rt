//! The exact book: an entry for each line, so that its stamps are the earliest that a book may
//! have.
ghost use Rattle.std.specs.Prelude.{◌≡◌, ◌<◌, max};
ghost use Rattle.protocol.specs.Limits.{line_limit};
ghost use Rattle.book.specs.Meaning.{IsNew};
ghost use Rattle.book.specs.Exact.{IsSound, FitsWithin, exact, exact_of, exact_new, entry_at};
ghost use Rattle.book.specs.Exact.{with_entry};

use crate::book::Book;
use crate::entry::{Entry, is_valid_time};
use crate::refused::Refused;
use protocol::limits::{LINES, STORES};

/// The exact book has an entry for each line.
#[derive(Drop)]
pub struct ExactBook {
    entries: [Entry; 4096],
    latest: u32,
    ghost sound: { IsSound (exact_of entries latest) },
}

impl ExactBook {
    ghost use Rattle.book.specs.ExactState.{exact_state};
    ghost use Rattle.book.specs.OneSlot.{OneSlotIsTooFew};

    /// A book with no stamps and no reservations.
    #[tactic(auto, using(crate::proofs::NewBook::new_book))]
    pub fn new() -> ExactBook
        ensures value { exact_state result ≡ exact_new }
        ensures new { IsNew exact (exact_state result) }
        ensures example { OneSlotIsTooFew }
    {
        let entries = [Entry::UNTOUCHED; 4096];
        ExactBook { entries, latest: 0 }
    }

    /// The entry of a line. A line past the last has the entry of a line that no call has named.
    fn entry(&self, line: u32) -> Entry
        ensures { result ≡ entry_at (exact_state self.now) line }
    {
        let entry = self.entries.get(line as usize).copied();
        entry.unwrap_or(Entry::UNTOUCHED)
    }

    /// Sets the entry of a line, and raises the latest stamp if it is earlier.
    fn set(&mut self, line: u32, entry: Entry, stamp: u32)
        requires inside { line < line_limit }
        requires fits { FitsWithin (max self.old.latest stamp) entry }
        ensures { exact_state self.new
            ≡ with_entry (exact_state self.old) line entry stamp }
    {
        self.entries[line as usize] = entry;
        self.latest = self.latest.max(stamp);
    }
}

impl Book for ExactBook {
    ghost use Rattle.book.specs.Exact.{exact};
    ghost use Rattle.book.specs.ExactState.{exact_state};
    ghost use Rattle.book.specs.Lemmas.ExactKeeps.{exact_keeps};

    ghost kind = { exact };

    ghost model = { exact_state };

    ghost keeps = { exact_keeps };

    ghost good = { λ book. book.sound };

    fn write_stamp(&self, line: u32) -> u32 {
        self.entry(line).stamps.write
    }

    fn read_mark(&self, line: u32) -> (u32, u32) {
        self.entry(line).stamps.read
    }

    fn stores(&self, line: u32) -> u32 {
        self.entry(line).stores()
    }

    fn owner(&self, line: u32) -> Option<u32> {
        self.entry(line).owner()
    }

    fn has_slot(&self, line: u32) -> bool {
        line < LINES
    }

    fn latest(&self) -> u32 {
        self.latest
    }

    fn note(&mut self, line: u32, time: (u32, u32)) -> Result<(), Refused> {
        if line >= LINES || !is_valid_time(time) {
            return Err(Refused);
        }
        self.set(line, self.entry(line).read_at(time), time.0);
        Ok(())
    }

    fn reserve(&mut self, line: u32, time: (u32, u32)) -> Result<(), Refused> {
        let entry = self.entry(line);
        if line >= LINES || !is_valid_time(time) || entry.stores() > 0 {
            return Err(Refused);
        }
        self.set(line, entry.reserved_by(time.1, time.0 + 1), time.0 + 1);
        Ok(())
    }

    fn add(&mut self, line: u32) -> Result<(), Refused> {
        let entry = self.entry(line);
        let stores = entry.stores();
        if line >= LINES || stores == 0 || stores as usize >= STORES {
            return Err(Refused);
        }
        self.set(line, entry.with_stores(stores + 1), 0);
        Ok(())
    }

    fn release(&mut self, line: u32) -> Result<(), Refused> {
        if line >= LINES {
            return Err(Refused);
        }
        self.set(line, self.entry(line).with_stores(0), 0);
        Ok(())
    }
}

#[cfg(test)]
mod tests {
    use super::*;

    #[test]
    fn refuses_what_no_book_grants(rt: HostRuntime) {
        let mut book = ExactBook::new();
        assert!(rt; book.note(4096, (0, 0)).is_err());
        assert!(rt; book.note(0, (1_000_000_001, 0)).is_err());
        assert!(rt; book.note(0, (0, 32)).is_err());
        assert!(rt; book.add(7).is_err());
        assert!(rt; book.note(4095, (1_000_000_000, 31)).is_ok());
    }

    #[test]
    fn counts_up_to_thirty_two(rt: HostRuntime) {
        let mut book = ExactBook::new();
        assert!(rt; book.reserve(7, (5, 2)).is_ok() && book.reserve(7, (6, 2)).is_err());
        for _ in 1..32 {
            assert!(rt; book.add(7).is_ok());
        }
        assert!(rt; book.stores(7) == 32 && book.add(7).is_err());
        assert_eq!(rt; book.owner(7), Some(2));
        assert!(rt; book.release(7).is_ok() && book.write_stamp(7) == 6);
    }
}
