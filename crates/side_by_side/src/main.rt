//! The two version books side by side: the same calls of both, and what each says of the lines.
#![tactic(auto)]

use book::{Book, BookCall, ExactBook, LineState, make_both};
use condensed::CondensedBook;
use std::io;

/// Each of these lines shares one of line 5's four filter entries. Line 5's mark is the earliest of
/// the four, so it has none before the last read.
const READS: [(u32, (u32, u32)); 4] = [(70, (9, 1)), (125, (7, 2)), (81, (8, 0)), (122, (7, 1))];

fn main(rt: HostRuntime) -> io::Result<()> {
    let mut books = Books {
        exact: ExactBook::new(),
        condensed: CondensedBook::new(),
    };
    for (line, time) in READS {
        books.call(&rt, BookCall::Note { line, time })?;
    }
    let (line, time) = (5, (20, 3));
    books.call(&rt, BookCall::Reserve { line, time })?;
    books.call(&rt, BookCall::Add { line })?;
    books.call(&rt, BookCall::Release { line })?;
    fill_slots(&rt, &mut books)
}

// Sixteen lines take all slots, and the last evicts line 5, whose stamps the filter keeps. A
// seventeenth line gets a slot only after a release.
fn fill_slots(rt: &impl Print, books: &mut Books) -> io::Result<()> {
    for line in 1000..1016 {
        let time = (1, 0);
        books.call(rt, BookCall::Reserve { line, time })?;
    }
    let (line, time) = (1016, (30, 4));
    books.call(rt, BookCall::Reserve { line, time })?;
    books.call(rt, BookCall::Release { line: 1000 })?;
    books.call(rt, BookCall::Reserve { line, time })?;
    let (line, time) = (1000, (3, 5));
    books.call(rt, BookCall::Note { line, time })
}

/// The two books.
#[derive(Drop)]
struct Books {
    exact: ExactBook,
    condensed: CondensedBook,
}

impl Books {
    /// Makes a call of both books, and prints what each then says of the call's line and of line 5.
    fn call(&mut self, rt: &impl Print, call: BookCall) -> io::Result<()> {
        let granted = make_both(&mut self.condensed, &mut self.exact, call).is_ok();
        println!(rt; "{call}: {}", if granted { "ok" } else { "no" })?;
        let line = call.line();
        self.print_line(rt, line)?;
        if line != 5 {
            self.print_line(rt, 5)?;
        }
        Ok(())
    }

    fn print_line(&self, rt: &impl Print, line: u32) -> io::Result<()> {
        print!(rt; "    line {line}: exact ")?;
        print_state(rt, &self.exact, line)?;
        print!(rt; "; condensed ")?;
        print_state(rt, &self.condensed, line)?;
        println!(rt; "")
    }
}

// Prints what a book says of a line.
fn print_state<B: Book>(rt: &impl Print, book: &B, line: u32) -> io::Result<()> {
    let LineState {
        write_stamp,
        read_mark,
        owner,
        has_slot,
    } = book.line_state(line);
    print!(rt; "{write_stamp} {read_mark:?}")?;
    if let Some(warp) = owner {
        print!(rt; ", {} by {warp}", book.stores(line))?;
    }
    if !has_slot {
        print!(rt; ", no slot")?;
    }
    Ok(())
}
