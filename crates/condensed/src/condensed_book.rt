//! The condensed book: sixteen slots, and a filter for the lines that are in none of them.
ghost use Rattle.std.specs.Prelude.{◌≡◌, ◌<◌, max, is_some, Some, None};
ghost use Rattle.std.specs.Option.{option_map};
ghost use Rattle.protocol.specs.Limits.{line_limit};
ghost use Rattle.book.specs.Meaning.{IsNew};
ghost use Rattle.book.specs.Earliest.{NeverEarlierThanExact};
ghost use Rattle.book.specs.Exact.{FitsWithin};
ghost use Rattle.condensed.specs.Condensed.{IsSound, IsBounded, condensed, condensed_of};
ghost use Rattle.condensed.specs.Condensed.{condensed_new};
ghost use Rattle.condensed.specs.Condensed.{slot_of, slot_or_choice, slot_for, entry_by_slot};
ghost use Rattle.condensed.specs.Condensed.{line_entry};
ghost use Rattle.condensed.specs.Condensed.{after_eviction, with_slot, after_note};

use crate::filter::{Filter, indices};
use crate::slot::{Occupant, Slot, SlotIndex, any_free, position_of};
use book::{Book, Entry, LineState, Refused, Stamps, is_valid_time};
use choice::choose;
use protocol::limits::{LINES, STORES};

/// The condensed book has sixteen slots, and a filter for the lines that are in none of them.
#[derive(Drop)]
pub struct CondensedBook {
    slots: [Slot; 16],
    filter: Filter,
    latest: u32,
    ghost sound: { IsSound (condensed_of slots filter latest) },
}

impl CondensedBook {
    ghost use Rattle.condensed.specs.CondensedState.{condensed_state, slot_index};
    ghost use Rattle.condensed.specs.FullBook.{NoSlotForASeventeenth};
    ghost use Rattle.condensed.specs.SharedEntries.{SharedMark};

    /// A book with no stamps and no reservations. Whatever calls it gets, none of its stamps is
    /// earlier than the exact book's.
    pub fn new() -> CondensedBook
        ensures value { condensed_state result ≡ condensed_new }
        ensures new { IsNew condensed (condensed_state result) }
        ensures never_earlier { NeverEarlierThanExact condensed }
        ensures full { NoSlotForASeventeenth }
        ensures example { SharedMark }
    {
        let slots = [Slot::EMPTY; 16];
        CondensedBook {
            slots,
            filter: Filter::new(),
            latest: 0,
        }
    }

    /// The slot that the line is in.
    fn slot_of(&self, line: u32) -> Option<SlotIndex>
        ensures { option_map slot_index result ≡ slot_of self.now.slots line }
    {
        let index = position_of(&self.slots, line)?;
        Some(SlotIndex { index })
    }

    /// The slot that a line is in, or else the free slot that is chosen for it.
    fn slot_or_choice(&self, inside: Option<SlotIndex>) -> Option<SlotIndex>
        ensures { option_map slot_index result
            ≡ slot_or_choice self.now.slots (option_map slot_index inside) }
    {
        if inside.is_some() {
            return inside;
        }
        let index = choose(&self.slots)?;
        Some(SlotIndex { index })
    }

    /// Whether there is a slot for a line: the slot that it is in, or else a free one.
    fn finds_slot(&self, inside: Option<SlotIndex>) -> bool
        ensures { result ≡ is_some (slot_or_choice self.now.slots (option_map slot_index inside)) }
    {
        inside.is_some() || any_free(&self.slots)
    }

    /// The entry of a line, from the slot that it is in or else from the filter.
    fn entry_by_slot(&self, line: u32, inside: Option<SlotIndex>) -> Entry
        ensures value { result
            ≡ entry_by_slot (condensed_state self.now) line (option_map slot_index inside) }
        ensures bound { IsBounded result.stamps self.now.latest }
    {
        if line >= LINES {
            return Entry::UNTOUCHED;
        }
        match inside {
            Some(slot) => self.slots[slot.index].entry(),
            None => Entry {
                stamps: self.filter.stamps(indices(line)),
                ..Entry::UNTOUCHED
            },
        }
    }

    /// The entry of the line.
    fn line_entry(&self, line: u32) -> Entry
        ensures { result ≡ line_entry (condensed_state self.now) line }
    {
        self.entry_by_slot(line, self.slot_of(line))
    }

    /// Writes a line and its entry into the slot for it, and raises the latest stamp if it is
    /// earlier.
    fn fill_slot(&mut self, line: u32, slot: SlotIndex, entry: Entry, stamp: u32)
        requires its_slot { slot_for self.old.slots line ≡ Some slot.index }
        requires in_range { line < line_limit }
        requires fits { FitsWithin (max self.old.latest stamp) entry }
        ensures { condensed_state self.new
            ≡ with_slot (condensed_state self.old) line slot.index entry stamp }
    {
        self.slots[slot.index] = Slot {
            occupant: Some(Occupant { line, entry }),
        };
        self.latest = self.latest.max(stamp);
    }

    /// Evicts a slot's line for a new one: the filter keeps the stamps of the evicted line.
    fn evict(&mut self, line: u32, slot: SlotIndex)
        ensures after { condensed_state self.new
            ≡ after_eviction (condensed_state self.old) line slot.index }
        ensures slots { self.new.slots ≡ self.old.slots }
        ensures latest { self.new.latest ≡ self.old.latest }
    {
        self.filter.evict(self.slots[slot.index], line);
    }

    /// Notes a read of a line that is in no slot.
    fn note_in_filter(&mut self, line: u32, time: (u32, u32))
        ensures { condensed_state self.new
            ≡ after_note (condensed_state self.old) line time None }
    {
        let read = Stamps {
            read: time,
            ..Stamps::NONE
        };
        self.filter.raise(indices(line), read);
        self.latest = self.latest.max(time.0);
    }
}

impl Book for CondensedBook {
    ghost use Rattle.condensed.specs.Condensed.{condensed};
    ghost use Rattle.condensed.specs.CondensedState.{condensed_state};
    ghost use Rattle.condensed.specs.Lemmas.CondensedKeeps.{condensed_keeps};

    ghost kind = { condensed };

    ghost model = { condensed_state };

    ghost keeps = { condensed_keeps };

    ghost good = { λ book. book.sound };

    fn write_stamp(&self, line: u32) -> u32 {
        self.line_entry(line).stamps.write
    }

    fn read_mark(&self, line: u32) -> (u32, u32) {
        self.line_entry(line).stamps.read
    }

    fn stores(&self, line: u32) -> u32 {
        self.line_entry(line).stores()
    }

    fn owner(&self, line: u32) -> Option<u32> {
        self.line_entry(line).owner()
    }

    fn has_slot(&self, line: u32) -> bool {
        line < LINES && self.finds_slot(self.slot_of(line))
    }

    fn line_state(&self, line: u32) -> LineState {
        let inside = self.slot_of(line);
        let entry = self.entry_by_slot(line, inside);
        LineState {
            write_stamp: entry.stamps.write,
            read_mark: entry.stamps.read,
            owner: entry.owner(),
            has_slot: line < LINES && self.finds_slot(inside),
        }
    }

    fn latest(&self) -> u32 {
        self.latest
    }

    fn note(&mut self, line: u32, time: (u32, u32)) -> Result<(), Refused> {
        if line >= LINES || !is_valid_time(time) {
            return Err(Refused);
        }
        match self.slot_of(line) {
            Some(slot) => self.fill_slot(
                line,
                slot,
                self.slots[slot.index].entry().read_at(time),
                time.0,
            ),
            None => self.note_in_filter(line, time),
        }
        Ok(())
    }

    fn reserve(&mut self, line: u32, time: (u32, u32)) -> Result<(), Refused> {
        if line >= LINES || !is_valid_time(time) {
            return Err(Refused);
        }
        let inside = self.slot_of(line);
        let entry = self.entry_by_slot(line, inside);
        if entry.stores() > 0 {
            return Err(Refused);
        }
        let slot = self.slot_or_choice(inside).ok_or(Refused)?;
        self.evict(line, slot);
        self.fill_slot(
            line,
            slot,
            entry.reserved_by(time.1, time.0 + 1),
            time.0 + 1,
        );
        Ok(())
    }

    fn add(&mut self, line: u32) -> Result<(), Refused> {
        if line >= LINES {
            return Err(Refused);
        }
        let slot = self.slot_of(line).ok_or(Refused)?;
        let entry = self.slots[slot.index].entry();
        let stores = entry.stores();
        if stores == 0 || stores as usize >= STORES {
            return Err(Refused);
        }
        self.fill_slot(line, slot, entry.with_stores(stores + 1), 0);
        Ok(())
    }

    fn release(&mut self, line: u32) -> Result<(), Refused> {
        if line >= LINES {
            return Err(Refused);
        }
        if let Some(slot) = self.slot_of(line) {
            self.fill_slot(line, slot, self.slots[slot.index].entry().with_stores(0), 0);
        }
        Ok(())
    }
}

#[cfg(test)]
mod tests {
    use super::*;

    #[test]
    fn sixteen_lines_take_all_slots(rt: HostRuntime) {
        let mut book = CondensedBook::new();
        for line in 100..116 {
            assert!(rt; book.reserve(line, (3, 1)).is_ok());
        }
        assert!(rt; book.has_slot(100) && !book.has_slot(116));
        assert!(rt; book.reserve(116, (3, 1)).is_err());
        assert!(rt; book.release(107).is_ok() && book.reserve(116, (3, 1)).is_ok());
        assert!(rt; book.write_stamp(107) == 4 && book.stores(107) == 0);
    }

    #[test]
    fn lines_that_share_entries_share_marks(rt: HostRuntime) {
        let mut book = CondensedBook::new();
        for line in [70, 125, 81, 122] {
            assert!(rt; book.note(line, (9, line % 32)).is_ok());
        }
        assert_eq!(rt; book.read_mark(5), (9, 6));
    }
}
