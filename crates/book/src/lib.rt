//! Version books: the laws of every book, and the exact book.
#![tactic(auto)]

mod book;
mod call;
mod entry;
mod exact_book;
mod refused;

pub use book::{Book, LineState};
pub use call::{BookCall, make, make_both};
pub use entry::{Entry, Hold, Stamps, is_valid_time};
pub use exact_book::ExactBook;
pub use refused::Refused;
