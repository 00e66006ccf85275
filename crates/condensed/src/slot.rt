//! The slots of the condensed book.
ghost use Rattle.std.specs.Prelude.{◌≡◌, ◌<◌, length, is_some, IfSome};
ghost use Rattle.condensed.specs.Condensed.{any_free, slot_holds, slot_entry, slot_of, slot_key};

use book::Entry;
use choice::Ranked;

/// A line in a slot, and its entry.
#[derive(Clone, Copy, PartialEq, Eq, Debug)]
pub struct Occupant {
    pub line: u32,
    pub entry: Entry,
}

/// A slot, and the line that it holds.
#[derive(Clone, Copy, PartialEq, Eq, Debug)]
pub struct Slot {
    pub occupant: Option<Occupant>,
}

/// Which of the sixteen slots.
#[derive(Clone, Copy)]
pub(crate) struct SlotIndex {
    pub(crate) index: usize,
    ghost in_range: { index < 16 },
}

impl Slot {
    /// A slot that holds no line.
    pub const EMPTY: Slot = Slot { occupant: None };

    /// Whether the slot holds the line.
    pub fn holds(&self, line: u32) -> bool
        ensures { result ≡ slot_holds self.now line }
    {
        self.occupant.is_some_and(|occupant| occupant.line == line)
    }

    /// Whether the slot is free: no store holds the line in it.
    pub fn is_free(&self) -> bool
        ensures { result ≡ is_some (slot_key self.now) }
    {
        self.occupant
            .is_none_or(|occupant| occupant.entry.hold.is_none())
    }

    /// The entry of the line in the slot. An empty slot has that of a line that no call has named.
    pub fn entry(self) -> Entry
        ensures { result ≡ slot_entry self }
    {
        self.occupant
            .map_or(Entry::UNTOUCHED, |occupant| occupant.entry)
    }
}

/// The key of a free slot is its line's write stamp, or 0 if it is empty. A reserved slot is not
/// allowed.
impl Ranked for Slot {
    ghost key = { slot_key };

    fn rank(&self) -> Option<u64> {
        let Some(Occupant { entry, .. }) = self.occupant else {
            return Some(0);
        };
        let free = entry.hold.is_none();
        free.then_some(u64::from(entry.stamps.write))
    }
}

/// The first of the slots that holds the line.
#[tactic(auto, unfolding(crate::specs::Condensed::slot_of))]
pub(crate) fn position_of(slots: &[Slot], line: u32) -> Option<usize>
    ensures value { result ≡ slot_of slots.now line }
    ensures within { IfSome result (λ index. index < length slots.now) }
{
    slots.iter().position(|slot| slot.holds(line))
}

/// Whether one of the slots is free.
pub(crate) fn any_free(slots: &[Slot]) -> bool
    ensures { result ≡ any_free slots.now }
{
    slots.iter().any(|slot| slot.is_free())
}
