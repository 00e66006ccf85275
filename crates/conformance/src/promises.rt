//! The promises of a version book, checked on what it says of the lines before and after a call.
use crate::line_view::LineView;
use book::{BookCall, is_valid_time};
use harriersofa::limits::{LINES, STORES};

/// A call of a book, and whether the book granted it.
#[derive(Clone, Copy)]
pub struct MadeCall {
    pub call: BookCall,
    pub granted: bool,
}

impl MadeCall {
    /// Whether a line changed as the call allows.
    pub fn allows_change(self, before: &LineView, after: &LineView) -> bool {
        if !self.granted {
            return before == after;
        }
        if after.is_earlier(before) {
            return false;
        }
        match self.call {
            BookCall::Note { line, time } => keeps_reservation(before, after)
                && (line != after.line || after.state.read_mark >= time),
            _ if self.call.line() != after.line => keeps_reservation(before, after),
            BookCall::Reserve { time, .. } => after.stores == 1
                && after.state.owner == Some(time.1)
                && time.0 < after.state.write_stamp,
            BookCall::Add { .. } => {
                before.stores.checked_add(1) == Some(after.stores)
                    && after.state.owner == before.state.owner
            }
            BookCall::Release { .. } => after.stores == 0,
        }
    }

    /// Whether the latest stamp rose no further than the call allows. A refused call leaves it.
    pub fn allows_latest(self, before: u32, after: u32) -> bool {
        if !self.granted {
            return after == before;
        }
        let most = match self.call {
            BookCall::Note { time, .. } => before.max(time.0),
            BookCall::Reserve { time, .. } => before.max(time.0.saturating_add(1)),
            BookCall::Add { .. } | BookCall::Release { .. } => before,
        };
        after <= most
    }
}

/// Whether a book must grant a call, by its view of the call's line before. It must refuse every
/// other call.
pub fn must_grant(call: BookCall, view: &LineView) -> bool {
    if view.line >= LINES {
        return false;
    }
    match call {
        BookCall::Note { time, .. } => is_valid_time(time),
        BookCall::Reserve { time, .. } => is_valid_time(time)
            && view.stores == 0
            && view.state.has_slot,
        BookCall::Add { .. } => view.stores > 0 && (view.stores as usize) < STORES,
        BookCall::Release { .. } => true,
    }
}

/// Whether at most as many lines are reserved as the book has slots, and every line has a slot
/// while fewer are. The views must hold every reserved line.
pub fn slots_suffice(views: &[LineView], slots: usize) -> bool {
    let reserved = views.iter().filter(|view| view.stores > 0).count();
    reserved == slots || (reserved < slots && views.iter().all(|view| view.state.has_slot))
}

/// Whether a line's reservation is as it was.
fn keeps_reservation(before: &LineView, after: &LineView) -> bool {
    after.stores == before.stores && after.state.owner == before.state.owner
}

/// Whether a view is consistent in itself, and has no stamp above the latest.
pub fn is_sound(view: &LineView, latest: u32) -> bool {
    let state = view.state;
    if state.write_stamp > latest || state.read_mark.0 > latest {
        return false;
    }
    if view.stores == 0 {
        return state.owner.is_none();
    }
    state.owner.is_some() && state.write_stamp > 0 && state.has_slot
}

#[cfg(test)]
mod tests {
    use super::*;
    use harriersofa::LineState;

    // A view with a write stamp of 4 and a read mark of (9, 0).
    fn view(line: u32, stores: u32, owner: Option<u32>) -> LineView {
        LineView {
            line,
            state: LineState {
                write_stamp: 4,
                read_mark: (9, 0),
                owner,
                has_slot: true,
            },
            stores,
        }
    }

    fn written_at(view: LineView, write_stamp: u32) -> LineView {
        LineView {
            state: LineState {
                write_stamp,
                ..view.state
            },
            ..view
        }
    }

    #[test]
    fn forbidden_changes_are_found(rt: HostRuntime) {
        let (free, held) = (view(7, 0, None), view(7, 1, Some(2)));
        let add = BookCall::Add { line: 7 };
        let note = BookCall::Note {
            line: 7,
            time: (5, 1),
        };
        let refused = MadeCall {
            call: add,
            granted: false,
        };
        let added = MadeCall {
            call: add,
            granted: true,
        };
        let noted = MadeCall {
            call: note,
            granted: true,
        };
        assert!(rt; refused.allows_change(&held, &held));
        assert!(rt; !refused.allows_change(&held, &view(7, 2, Some(2))));
        assert!(rt; noted.allows_change(&free, &free));
        assert!(rt; !noted.allows_change(&free, &written_at(free, 3)));
        assert!(rt; added.allows_change(&view(8, 0, None), &view(8, 0, None)));
        assert!(rt; !added.allows_change(&view(8, 0, None), &view(8, 1, Some(2))));
        assert!(rt; added.allows_latest(9, 9) && !added.allows_latest(9, 10));
    }

    #[test]
    fn unsound_views_are_found(rt: HostRuntime) {
        let free = view(7, 0, None);
        let full = LineView {
            state: LineState {
                has_slot: false,
                ..free.state
            },
            ..free
        };
        assert!(rt; is_sound(&free, 9) && !is_sound(&free, 8));
        assert!(rt; !is_sound(&written_at(free, 10), 9));
        assert!(rt; !is_sound(&view(7, 0, Some(2)), 9) && !is_sound(&view(7, 1, None), 9));
        assert!(rt; slots_suffice(&[free, free], 16) && !slots_suffice(&[free, full], 16));
        assert!(rt; slots_suffice(&[full, view(8, 1, Some(2))], 1));
        assert!(rt; !slots_suffice(&[view(7, 1, Some(2)), view(8, 1, Some(2))], 1));
    }
}
