//! What a book says of a line, as one value.
ghost use Rattle.std.specs.Prelude.{◌≡◌};

use book::Book;
use harriersofa::LineState;

/// A line, what a book says of it, and the number of stores that hold it.
#[derive(Clone, Copy, PartialEq, Eq, Debug)]
pub struct LineView {
    pub line: u32,
    pub state: LineState,
    pub stores: u32,
}

impl LineView {
    /// The view of a line in a book.
    pub fn of<B: Book>(book: &B, line: u32) -> LineView
        ensures line { result.line ≡ line }
        ensures written { result.state.write_stamp ≡ B.kind.write_stamp (B.model book.now) line }
        ensures read { result.state.read_mark ≡ B.kind.read_mark (B.model book.now) line }
        ensures stores { result.stores ≡ B.kind.stores (B.model book.now) line }
        ensures owner { result.state.owner ≡ B.kind.owner (B.model book.now) line }
        ensures slot { result.state.has_slot ≡ B.kind.has_slot (B.model book.now) line }
    {
        LineView {
            line,
            state: book.line_state(line),
            stores: book.stores(line),
        }
    }

    /// Whether the write stamp or the read mark is earlier here than in the other view.
    pub fn is_earlier(&self, other: &LineView) -> bool {
        self.state.write_stamp < other.state.write_stamp
            || self.state.read_mark < other.state.read_mark
    }
}
