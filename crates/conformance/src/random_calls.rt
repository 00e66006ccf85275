//! Random calls from a fixed seed, made of both books, with the promises checked at each call.
use crate::line_view::LineView;
use crate::promises::{MadeCall, is_sound, must_grant, slots_suffice};
use book::{Book, BookCall, make_both};
use harriersofa::{CondensedBook, ExactBook};
use std::{array, io};

/// The number of lines that are called, and viewed after each call.
const LINE_COUNT: usize = 100;

/// The distance between those lines: each of them shares entries of the filter with some of the
/// others.
const LINE_DISTANCE: u32 = 37;

/// Prints what came of a thousand calls for each of three seeds.
pub fn print_random_calls(rt: &impl Print) -> io::Result<()> {
    for seed in [1, 2024, 77777] {
        let Summary {
            calls,
            granted,
            views,
            later,
            kept,
        } = make_random_calls(seed, 1000);
        let promises = if kept { "kept" } else { "BROKEN" };
        println!(rt; "seed {seed}: {calls} calls, {granted} granted, promises {promises}")?;
        println!(rt;
            "    the condensed book has a later stamp than the exact book in {later} of {views} views"
        )?;
    }
    Ok(())
}

/// What came of the calls.
#[derive(Clone, Copy, PartialEq, Eq, Debug, Default)]
pub struct Summary {
    pub calls: u32,
    pub granted: u32,
    /// The number of views of a line in each book.
    pub views: usize,
    /// In how many views the condensed book had a later stamp than the exact one.
    pub later: usize,
    /// Whether both books kept their promises, and the exact one never had a later stamp.
    pub kept: bool,
}

impl Summary {
    fn with(self, granted: bool, later: usize) -> Summary {
        Summary {
            granted: self.granted.saturating_add(u32::from(granted)),
            views: self.views.saturating_add(LINE_COUNT),
            later: self.later.saturating_add(later),
            ..self
        }
    }
}

/// The next number of a small generator.
fn next_number(seed: u32) -> u32 {
    let mut x = seed;
    x ^= x << 13;
    x ^= x >> 17;
    x ^= x << 5;
    x
}

/// A call made of three numbers. Some of these calls name a line, a stamp or a warp that every book
/// refuses.
fn call_from(which: u32, place: u32, stamp: u32) -> BookCall {
    let line = if place % 97 == 0 {
        4096
    } else {
        place % 100 * LINE_DISTANCE
    };
    let time = if stamp % 101 == 0 {
        (1_000_000_001, 0)
    } else {
        (stamp % 200, stamp / 256 % 33)
    };
    match which % 8 {
        0..=2 => BookCall::Note { line, time },
        3 | 4 => BookCall::Reserve { line, time },
        5 => BookCall::Add { line },
        _ => BookCall::Release { line },
    }
}

/// What a book says of each of the lines that are called, and its latest stamp.
#[derive(Clone, Copy)]
struct Snapshot {
    views: [LineView; LINE_COUNT],
    latest: u32,
}

impl Snapshot {
    fn of<B: Book>(book: &B) -> Snapshot {
        Snapshot {
            views: array::from_fn(|place| LineView::of(book, place as u32 * LINE_DISTANCE)),
            latest: book.latest(),
        }
    }
}

/// Whether a book with a number of slots kept its promises over a call.
fn keeps_promises(made: MadeCall, slots: usize, before: &Snapshot, after: &Snapshot) -> bool {
    let mut views = before.views.iter().zip(&after.views);
    let each = views.all(|(a, b)| made.allows_change(a, b) && is_sound(b, after.latest));
    each && slots_suffice(&after.views, slots) && made.allows_latest(before.latest, after.latest)
}

/// The number of lines that have a later stamp in the other book, or `None` if one has an earlier
/// stamp there.
fn later_lines(exact: &[LineView], other: &[LineView]) -> Option<usize> {
    if other.iter().zip(exact).any(|(b, a)| b.is_earlier(a)) {
        return None;
    }
    Some(
        exact
            .iter()
            .zip(other)
            .filter(|(a, b)| a.is_earlier(b))
            .count(),
    )
}

/// A call made of both books: whether it was granted, and how many lines then have a later stamp in
/// the condensed book. `None` if a book broke a promise.
fn checked_call(
    exact: &mut ExactBook,
    condensed: &mut CondensedBook,
    call: BookCall,
) -> Option<(bool, usize)> {
    let before = (Snapshot::of(exact), Snapshot::of(condensed));
    let must_be_granted = must_grant(call, &LineView::of(condensed, call.line()));
    let exact_must_grant = must_grant(call, &LineView::of(exact, call.line()));
    let granted = make_both(condensed, exact, call).is_ok();
    if granted != must_be_granted || (granted && !exact_must_grant) {
        return None;
    }
    let after = (Snapshot::of(exact), Snapshot::of(condensed));
    let made = MadeCall { call, granted };
    if !keeps_promises(made, 4096, &before.0, &after.0) {
        return None;
    }
    if !keeps_promises(made, 16, &before.1, &after.1) {
        return None;
    }
    if after.0.latest > after.1.latest {
        return None;
    }
    let later = later_lines(&after.0.views, &after.1.views)?;
    Some((granted, later))
}

/// Makes random calls of two new books.
fn make_random_calls(seed: u32, calls: u32) -> Summary {
    let mut exact = ExactBook::new();
    let mut condensed = CondensedBook::new();
    let mut summary = Summary {
        calls,
        kept: true,
        ..Summary::default()
    };
    let mut x = seed;
    for _ in 0..calls {
        let which = next_number(x);
        let place = next_number(which);
        x = next_number(place);
        match checked_call(&mut exact, &mut condensed, call_from(which, place, x)) {
            Some((granted, later)) => summary = summary.with(granted, later),
            None => summary.kept = false,
        }
    }
    summary
}

#[cfg(test)]
mod tests {
    use super::*;

    #[test]
    fn both_books_keep_their_promises(rt: HostRuntime) {
        for seed in [3, 14159, 2_718_281_828] {
            assert!(rt; make_random_calls(seed, 400).kept);
        }
    }

    #[test]
    fn a_change_of_one_line_is_found(rt: HostRuntime) {
        let before = Snapshot::of(&ExactBook::new());
        let mut after = before;
        after.views[57].state.owner = Some(3);
        let made = MadeCall {
            call: BookCall::Release { line: 37 },
            granted: true,
        };
        assert!(rt; keeps_promises(made, 4096, &before, &before));
        assert!(rt; !keeps_promises(made, 4096, &before, &after));
    }

    #[test]
    fn one_earlier_line_of_many_is_found(rt: HostRuntime) {
        let line = LineView::of(&ExactBook::new(), 0);
        let mut later = line;
        later.state.write_stamp = 1;
        assert_eq!(rt; later_lines(&[line, line], &[line, later]), Some(1));
        assert_eq!(rt; later_lines(&[line, later], &[later, line]), None);
    }
}
