//! Refusals: why, which layer refuses, and the offending number.
ghost use Rattle.std.specs.Prelude.{◌≡◌, Some};
ghost use Rattle.protocol.specs.Answers.{refusal_text};
ghost use Rattle.protocol.specs.Faults.{refusal_number, NumbersDiffer, call_layer, fault_in_call};
ghost use Rattle.protocol.specs.Faults.{fault_in_file, fault_with_number};

use std::fmt;

/// Why a call is refused or a calls file is rejected, in the order of the numbers that listings
/// print.
#[derive(Clone, Copy, PartialEq, Eq, Debug)]
pub enum Refusal {
    /// The machine has no such warp.
    NoSuchWarp = 1,
    /// Any call but begin, on an idle warp.
    WarpIdle,
    /// Begin, on a warp that is not idle.
    WarpNotIdle,
    /// Load, store, commit or drop, on a warp that waits or whose outcome is not fetched yet.
    OutcomePending,
    /// Fetch, on an open warp.
    NothingToFetch,
    /// Load or store, of a line that the memory or the book does not have.
    NoSuchLine,
    /// Store, with a full log.
    LogFull,
    /// Begin, with a stamp past the end of the clock.
    ClockSpent,
    /// Too few or too many warps or lines, or their numbers are missing.
    BadSize,
    /// A first stamp past the end of the clock, or a book that is not new.
    BadStamp,
    /// The file does not begin as a calls file.
    BadMark,
    /// The file's version is unknown or missing.
    BadVersion,
    /// The file ends in its first stamps, its line values or a row.
    CutShort,
    /// A letter that names no book or no call, or the book's letter is missing.
    BadLetter,
    /// The file has more rows than the maximum.
    TooManyRows,
}

/// The layer of the program that refuses.
#[derive(Clone, Copy, PartialEq, Eq, Debug)]
pub enum Layer {
    Memory,
    File,
    Machine,
}

/// A refusal: why, which layer refuses, and the offending number, which is a warp, a line, a stamp,
/// a count or a byte's position in a file.
#[derive(Clone, Copy, PartialEq, Eq, Debug)]
pub struct Fault {
    pub refusal: Refusal,
    pub layer: Layer,
    pub number: u64,
}

impl Refusal {
    /// The number that listings print for the refusal.
    pub fn number(self) -> u8
        ensures answer { result ≡ refusal_number self }
        ensures apart { NumbersDiffer }
    {
        self as u8
    }

    /// The layer that refuses a call: the memory if it does not have the line, and else the
    /// machine.
    fn call_layer(self) -> Layer
        ensures { result ≡ call_layer self }
    {
        match self {
            Refusal::NoSuchLine => Layer::Memory,
            Refusal::NoSuchWarp
            | Refusal::WarpIdle
            | Refusal::WarpNotIdle
            | Refusal::OutcomePending
            | Refusal::NothingToFetch
            | Refusal::LogFull
            | Refusal::ClockSpent
            | Refusal::BadSize
            | Refusal::BadStamp
            | Refusal::BadMark
            | Refusal::BadVersion
            | Refusal::CutShort
            | Refusal::BadLetter
            | Refusal::TooManyRows => Layer::Machine,
        }
    }
}

/// A refusal as listings print it: `no` and its number.
impl fmt::Display for Fault {
    ghost output = { λ fault. Some (refusal_text fault) };

    fn fmt<W: fmt::Write>(&self, f: &mut fmt::Formatter<W>) -> fmt::Result {
        write!(f, "no {}", self.refusal.number())
    }
}

impl Fault {
    /// The refusal of a call.
    pub fn in_call(refusal: Refusal, number: u64) -> Fault
        ensures { result ≡ fault_in_call refusal number }
    {
        Fault {
            refusal,
            layer: refusal.call_layer(),
            number,
        }
    }

    /// The same refusal with another offending number.
    pub fn with_number(self, number: u64) -> Fault
        ensures { result ≡ fault_with_number self number }
    {
        Fault { number, ..self }
    }

    /// The rejection of a calls file, at a byte counted from 0.
    pub fn in_file(refusal: Refusal, place: usize) -> Fault
        ensures { result ≡ fault_in_file refusal place }
    {
        Fault {
            refusal,
            layer: Layer::File,
            number: place as u64,
        }
    }
}
