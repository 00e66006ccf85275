//! The refusal of a call by a book.

/// The book does not grant the call. It gives no reason.
#[derive(Clone, Copy, PartialEq, Eq, Debug)]
pub struct Refused;
