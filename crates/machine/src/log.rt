//! Logs: what a transaction has stored and not yet committed.
ghost use Rattle.std.specs.Prelude.{◌≡◌, ◌<◌, ◌≤◌, [], ◌∷◌, ◌++◌, map, length};
ghost use Rattle.std.specs.Prelude.{if◌then◌else◌, Some, None, nat_le};
ghost use Rattle.std.specs.List.{All};
ghost use Rattle.protocol.specs.Limits.{line_limit, log_limit};
ghost use Rattle.rules.specs.Logs.{log_entry, last_stored, logged_lines};

use crate::lines::push_new;
use arrayvec::ArrayVec;
use protocol::limits::STORES;
use std::marker::Model;

/// One store of a transaction, to a line that a book can number.
#[derive(Clone, Copy, PartialEq, Eq, Debug)]
pub struct Store {
    pub line: u32,
    pub value: u32,
    ghost inside: { line < line_limit },
}

// By hand, since a derived one is refused beside a ghost field.
impl Default for Store {
    ghost use Rattle.machine.specs.Logs.{store_entry};

    ghost is_default = { λ store. store_entry store ≡ log_entry 0 0 };

    fn default() -> Store {
        Store { line: 0, value: 0 }
    }
}

/// The stores of a transaction, in the order made. It is changed by value.
#[derive(Clone, Drop)]
pub struct Log {
    pub(crate) len: usize,
    pub(crate) stores: [Store; 32],
}

impl Model for Log {
    ghost use Rattle.std.specs.Prelude.{◌≡◌, ◌≤◌, List, length};
    ghost use Rattle.protocol.specs.Limits.{log_limit};
    ghost use Rattle.rules.specs.Logs.{LogEntry};

    ghost Value = { List LogEntry };

    ghost use Rattle.machine.specs.Logs.{first_entries};

    ghost view = { λ log. first_entries log.len log.stores };

    ghost invariant = { λ log. (length log.stores ≡ 32) × (log.len ≤ log_limit) };
}

impl Log {
    ghost use Rattle.machine.specs.Logs.{store_entry, first_entries};

    /// A log without stores.
    pub fn new() -> Log
        ensures { result ≡ [] }
    {
        Log {
            len: 0,
            stores: [Store::default(); 32],
        }
    }

    /// The log of the first `len` of some stores, if a log can hold that many.
    // Keep this form: docs/DECISIONS.md.
    pub fn of(len: usize, stores: &[Store; 32]) -> Option<Log>
        ensures { result
            ≡ (if nat_le len log_limit then Some (first_entries len stores.now) else None) }
    {
        if len > STORES {
            return None;
        }
        Some(Log {
            len,
            stores: *stores,
        })
    }

    /// The log with one more store at its end.
    pub(crate) fn push(mut self, store: Store) -> Log
        requires { length self < log_limit }
        ensures { result ≡ self ++ store_entry store ∷ [] }
    {
        self.stores[self.len] = store;
        self.len += 1;
        self
    }

    /// The number of stores.
    pub fn len(&self) -> usize
        ensures value { result ≡ length self.now }
        ensures room { result ≤ log_limit }
    {
        self.len
    }

    /// The stores, in the order made.
    pub fn stores(&self) -> &[Store]
        ensures value { map store_entry result.now ≡ self.now }
        ensures room { length result.now ≤ log_limit }
    {
        &self.stores[..self.len]
    }

    /// The last value that was stored to the line, if any.
    pub fn latest(&self, line: u32) -> Option<u32>
        ensures { result ≡ last_stored self.now line }
    {
        // Keep this form: docs/DECISIONS.md.
        let mut found = None;
        for store in self.stores() {
            if store.line == line {
                found = Some(store.value);
            }
        }
        found
    }

    /// The lines that are stored to, each once, in the order of their first store.
    pub fn lines(&self) -> ArrayVec<u32, 32>
        ensures value { result.items ≡ logged_lines self.now }
        ensures inside { All (λ line. line < line_limit) result.items }
    {
        let mut lines = ArrayVec::new();
        for store in self.stores() {
            push_new(&mut lines, store.line);
        }
        lines
    }
}
