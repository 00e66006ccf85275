//! The content of a calls file, and why a file cannot be read.
ghost use Rattle.std.specs.Prelude.{◌≡◌, ◌≤◌, vec_len};
ghost use Rattle.std.specs.Option.{ok_or};
ghost use Rattle.protocol.specs.declared.fault.Refusal.TheVariants.{BadLetter};
ghost use Rattle.calls.specs.Format.{book_letter, book_named, LettersNameBooks, BooksKeepLetters};
ghost use Rattle.calls.specs.declared.file.ReadError.TheVariants.{Damaged, NoMemory};

use protocol::{Call, Fault, Refusal};
use std::alloc::AllocError;

/// The version book that a file asks for.
#[derive(Clone, Copy, PartialEq, Eq, Debug)]
pub enum BookKind {
    Exact,
    Condensed,
}

impl BookKind {
    /// The letter by which a calls file asks for the book.
    pub fn letter(self) -> char
        ensures { result ≡ book_letter self }
    {
        match self {
            BookKind::Exact => 'E',
            BookKind::Condensed => 'C',
        }
    }
}

/// The book that a letter names.
impl TryFrom<char> for BookKind {
    type Error = Refusal;

    ghost try_from_gives = { λ letter result. result ≡ ok_or (book_named letter) BadLetter };

    fn try_from(letter: char) -> Result<BookKind, Refusal>
        ensures answer { result ≡ ok_or (book_named letter) BadLetter }
        ensures back { LettersNameBooks }
        ensures kept { BooksKeepLetters }
    {
        match letter {
            'E' => Ok(BookKind::Exact),
            'C' => Ok(BookKind::Condensed),
            _ => Err(Refusal::BadLetter),
        }
    }
}

/// The content of a file whose header is sound: the machine to make, the calls to make of it, and
/// what is wrong after the last of these calls, if anything.
#[derive(Drop)]
pub struct CallsFile {
    pub book: BookKind,
    pub stamps: Vec<u32>,
    pub values: Vec<u32>,
    pub calls: Vec<Call>,
    pub fault: Option<Fault>,
    ghost warps: { vec_len stamps ≤ 32 },
    ghost lines: { vec_len values ≤ 4096 },
}

/// Why a file cannot be read: its header is damaged, or memory runs out.
#[derive(Clone, Copy, PartialEq, Eq, Debug)]
pub enum ReadError {
    Damaged(Fault),
    NoMemory,
}

impl From<Fault> for ReadError {
    ghost from_gives = { λ fault r. r ≡ Damaged fault };

    fn from(fault: Fault) -> ReadError {
        ReadError::Damaged(fault)
    }
}

impl From<AllocError> for ReadError {
    ghost from_gives = { λ _ r. r ≡ NoMemory };

    fn from(_error: AllocError) -> ReadError {
        ReadError::NoMemory
    }
}
