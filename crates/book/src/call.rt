//! The calls of a book as values, and two books that get the same calls.
ghost use Rattle.std.specs.Prelude.{◌≡◌, Some};
ghost use Rattle.book.specs.Grants.{grant_result};
ghost use Rattle.book.specs.Earliest.{is_granted, state_after_call, both_after_call};
ghost use Rattle.book.specs.Earliest.{NeverEarlierThanExact};
ghost use Rattle.book.specs.ExactState.{exact_state};
ghost use Rattle.book.specs.Printed.{call_line, call_text};

use crate::book::Book;
use crate::exact_book::ExactBook;
use crate::refused::Refused;
use std::fmt;

/// A call that changes a book. A time is a pair of stamp and warp.
#[derive(Clone, Copy, PartialEq, Eq, Debug)]
pub enum BookCall {
    Note { line: u32, time: (u32, u32) },
    Reserve { line: u32, time: (u32, u32) },
    Add { line: u32 },
    Release { line: u32 },
}

impl BookCall {
    /// The line that the call is about.
    pub fn line(self) -> u32
        ensures { result ≡ call_line self }
    {
        match self {
            BookCall::Note { line, .. }
            | BookCall::Reserve { line, .. }
            | BookCall::Add { line }
            | BookCall::Release { line } => line,
        }
    }
}

impl fmt::Display for BookCall {
    ghost output = { λ call. Some (call_text call) };

    fn fmt<W: fmt::Write>(&self, f: &mut fmt::Formatter<W>) -> fmt::Result {
        match *self {
            BookCall::Note { line, time } => write!(f, "note {line} at {time:?}"),
            BookCall::Reserve { line, time } => write!(f, "reserve {line} at {time:?}"),
            BookCall::Add { line } => write!(f, "add {line}"),
            BookCall::Release { line } => write!(f, "release {line}"),
        }
    }
}

/// Makes a call of a book. A refused call changes nothing.
pub fn make<B: Book>(book: &mut B, call: BookCall) -> Result<(), Refused>
    ensures answer { result ≡ grant_result (is_granted B.kind (B.model book.old) call) }
    ensures after { B.model book.new
        ≡ state_after_call B.kind (B.model book.old) call }
{
    match call {
        BookCall::Note { line, time } => book.note(line, time),
        BookCall::Reserve { line, time } => book.reserve(line, time),
        BookCall::Add { line } => book.add(line),
        BookCall::Release { line } => book.release(line),
    }
}

/// Makes a call of a book and, if it is granted, of the exact book too. In every run of such calls
/// from two new books, the exact book grants each call that the other grants, and none of its
/// stamps, marks or latest stamps is later.
#[tactic(auto, using(crate::proofs::Earliest::made_of_both))]
pub fn make_both<B: Book>(
    book: &mut B,
    exact: &mut ExactBook,
    call: BookCall,
) -> Result<(), Refused>
    ensures answer { result ≡ grant_result (is_granted B.kind (B.model book.old) call) }
    ensures after { (B.model book.new, exact_state exact.new)
        ≡ both_after_call B.kind (B.model book.old, exact_state exact.old) call }
    ensures earliest { NeverEarlierThanExact B.kind }
{
    make(book, call)?;
    let _ = make(exact, call);
    Ok(())
}
