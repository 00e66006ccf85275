//! What a book keeps of a line: its stamps and its reservation.
ghost use Rattle.std.specs.Prelude.{◌≡◌, ◌<◌};
ghost use Rattle.book.specs.Meaning.{is_valid_time};

use protocol::limits::{LAST_STAMP, WARPS};

/// How late a line was written and read.
#[derive(Clone, Copy, PartialEq, Eq, Debug)]
pub struct Stamps {
    /// The write stamp: a transaction with a smaller stamp comes too late to read or write the
    /// line.
    pub write: u32,
    /// The read mark: a transaction at an earlier time comes too late to write the line.
    pub read: (u32, u32),
}

/// The reservation of a line: how many stores hold it, and the warp that made them. Only an entry
/// makes one.
#[derive(Clone, Copy, PartialEq, Eq, Debug)]
pub struct Hold {
    warp: u32,
    stores: u32,
    ghost some: { 0 < stores },
}

/// What a book keeps of a line: its stamps, and its reservation if it has one.
#[derive(Clone, Copy, PartialEq, Eq, Debug)]
pub struct Entry {
    pub stamps: Stamps,
    pub hold: Option<Hold>,
}

/// Whether a call may name this time: its stamp is not past the end of the clock, and there is such
/// a warp.
pub fn is_valid_time(time: (u32, u32)) -> bool
    ensures { result ≡ is_valid_time time }
{
    time.0 <= LAST_STAMP && time.1 < WARPS
}

impl Stamps {
    ghost use Rattle.book.specs.Entries.{later_stamps, earlier_stamps};

    /// The stamps of a line that was never read or written.
    pub const NONE: Stamps = Stamps {
        write: 0,
        read: (0, 0),
    };

    /// The later of each.
    pub fn raised(self, other: Stamps) -> Stamps
        ensures { result ≡ later_stamps self other }
    {
        Stamps {
            write: self.write.max(other.write),
            read: self.read.max(other.read),
        }
    }

    /// The earlier of each.
    pub fn least(self, other: Stamps) -> Stamps
        ensures { result ≡ earlier_stamps self other }
    {
        Stamps {
            write: self.write.min(other.write),
            read: self.read.min(other.read),
        }
    }
}

impl Hold {
    ghost use Rattle.book.specs.Entries.{hold_of};

    /// The hold of this many stores by a warp; none for 0 stores.
    fn of(warp: u32, stores: u32) -> Option<Hold>
        ensures { result ≡ hold_of warp stores }
    {
        match stores {
            0 => None,
            _ => Some(Hold { warp, stores }),
        }
    }
}

impl Entry {
    ghost use Rattle.book.specs.Entries.{entry_owner, entry_stores};
    ghost use Rattle.book.specs.Entries.{entry_after_read, reserved_entry, entry_with_stores};

    /// A line that no call has named.
    pub const UNTOUCHED: Entry = Entry {
        stamps: Stamps::NONE,
        hold: None,
    };

    /// How many stores hold the line.
    pub fn stores(self) -> u32
        ensures { result ≡ entry_stores self }
    {
        self.hold.map_or(0, |hold| hold.stores)
    }

    /// The warp whose stores hold the line.
    pub fn owner(self) -> Option<u32>
        ensures { result ≡ entry_owner self }
    {
        self.hold.map(|hold| hold.warp)
    }

    /// The entry after a read.
    pub fn read_at(self, time: (u32, u32)) -> Entry
        ensures { result ≡ entry_after_read self time }
    {
        let read = Stamps {
            read: time,
            ..Stamps::NONE
        };
        Entry {
            stamps: self.stamps.raised(read),
            ..self
        }
    }

    /// The entry after a warp reserves the line and raises its write stamp to `stamp`.
    pub fn reserved_by(self, warp: u32, stamp: u32) -> Entry
        ensures { result ≡ reserved_entry self warp stamp }
    {
        let written = Stamps {
            write: stamp,
            ..Stamps::NONE
        };
        Entry {
            stamps: self.stamps.raised(written),
            hold: Hold::of(warp, 1),
        }
    }

    /// The entry with another number of stores, of the same owner. If the line has no owner, warp 0
    /// becomes it, unless the number is 0.
    pub fn with_stores(self, stores: u32) -> Entry
        ensures { result ≡ entry_with_stores self stores }
    {
        let warp = self.owner().unwrap_or(0);
        Entry {
            hold: Hold::of(warp, stores),
            ..self
        }
    }
}
