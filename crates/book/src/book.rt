//! The trait of version books: what each call returns, and what it does to the book.
ghost use Rattle.std.specs.Prelude.{◌≡◌, OnErr};
ghost use Rattle.book.specs.Grants.{grant_result};
ghost use Rattle.book.specs.Meaning.{Kind, Keeps, can_note, can_reserve, can_add, can_release};
ghost use Rattle.book.specs.Meaning.{state_after_note, state_after_reserve};
ghost use Rattle.book.specs.Meaning.{state_after_add, state_after_release};

use crate::refused::Refused;

/// What a book says of a line. A time is a pair of stamp and warp.
#[derive(Clone, Copy, PartialEq, Eq, Debug)]
pub struct LineState {
    pub write_stamp: u32,
    pub read_mark: (u32, u32),
    pub owner: Option<u32>,
    pub has_slot: bool,
}

/// A version book says of each line when it was last written and read, which warp has it reserved
/// and with how many stores, and whether there is a slot for it. A time is a pair of stamp and
/// warp.
pub trait Book {
    // The kind of book: its states, what each state says of a line, and the state after each call.
    ghost kind: { Kind };

    // The state of a value.
    ghost model: { Self → kind.State };

    /// The write stamp: a transaction with a smaller stamp is too late to load or store the line.
    fn write_stamp(&self, line: u32) -> u32
        ensures { result ≡ kind.write_stamp (model self.now) line };

    /// The read mark: a transaction with an earlier time is too late to store to the line.
    fn read_mark(&self, line: u32) -> (u32, u32)
        ensures { result ≡ kind.read_mark (model self.now) line };

    /// The number of stores that hold the line reserved.
    fn stores(&self, line: u32) -> u32
        ensures { result ≡ kind.stores (model self.now) line };

    /// The warp that has the line reserved.
    fn owner(&self, line: u32) -> Option<u32>
        ensures { result ≡ kind.owner (model self.now) line };

    /// Whether there is a slot for the line.
    fn has_slot(&self, line: u32) -> bool
        ensures { result ≡ kind.has_slot (model self.now) line };

    /// All of these at once, except the number of stores.
    fn line_state(&self, line: u32) -> LineState
        ensures written { result.write_stamp ≡ kind.write_stamp (model self.now) line }
        ensures read { result.read_mark ≡ kind.read_mark (model self.now) line }
        ensures owner { result.owner ≡ kind.owner (model self.now) line }
        ensures slot { result.has_slot ≡ kind.has_slot (model self.now) line }
    {
        LineState {
            write_stamp: self.write_stamp(line),
            read_mark: self.read_mark(line),
            owner: self.owner(line),
            has_slot: self.has_slot(line),
        }
    }

    /// The latest stamp: no stamp in the book is later.
    fn latest(&self) -> u32
        ensures { result ≡ kind.latest (model self.now) };

    /// Notes a read of the line.
    fn note(&mut self, line: u32, time: (u32, u32)) -> Result<(), Refused>
        ensures answer { result ≡ grant_result (can_note kind (model self.old) line time) }
        ensures after { model self.new ≡ state_after_note kind (model self.old) line time }
        ensures unchanged { OnErr result (self.new ≡ self.old) };

    /// Reserves an unreserved line for the warp of `time`, with one store.
    fn reserve(&mut self, line: u32, time: (u32, u32)) -> Result<(), Refused>
        ensures answer { result ≡ grant_result (can_reserve kind (model self.old) line time) }
        ensures after { model self.new ≡ state_after_reserve kind (model self.old) line time }
        ensures unchanged { OnErr result (self.new ≡ self.old) };

    /// Counts one more store of a reserved line.
    fn add(&mut self, line: u32) -> Result<(), Refused>
        ensures answer { result ≡ grant_result (can_add kind (model self.old) line) }
        ensures after { model self.new ≡ state_after_add kind (model self.old) line }
        ensures unchanged { OnErr result (self.new ≡ self.old) };

    /// Ends the line's reservation: no store holds it any more.
    fn release(&mut self, line: u32) -> Result<(), Refused>
        ensures answer { result ≡ grant_result (can_release kind (model self.old) line) }
        ensures after { model self.new ≡ state_after_release kind (model self.old) line }
        ensures unchanged { OnErr result (self.new ≡ self.old) };

    // The laws of a version book hold in every sound state, and the state of every value is sound.
    ghost keeps: { Keeps kind };

    ghost good: { (b : Self) → kind.Good (model b) };
}
