//! The queue: who waits for what, and whether there is room for one more request.
ghost use Rattle.std.specs.Prelude.{◌≡◌, ◌<◌, ◌≤◌, [], ◌∷◌, ◌++◌, length, nat_lt, slice_get};
ghost use Rattle.rules.specs.Lists.{distinct_numbers};
ghost use Rattle.rules.specs.Queue.{request_of, queue_without, requests_on, is_full};
ghost use Rattle.machine.specs.Requests.{waiting_lines};

use crate::lines::push_new;
use arrayvec::ArrayVec;
use rules::Request;
use std::marker::Model;

/// At most 32 requests, in the order of arrival.
#[derive(Clone, Drop)]
pub struct Queue {
    requests: ArrayVec<Request, 32>,
}

impl Model for Queue {
    ghost use Rattle.std.specs.Prelude.{List};
    ghost use Rattle.rules.specs.declared.state.Request.{Request};

    ghost Value = { List Request };

    ghost view = { λ queue. queue.requests.items };
}

/// How much room the queue has.
#[derive(Clone, Copy, PartialEq, Eq, Debug)]
pub struct QueueLimits {
    /// The maximum number of requests for one line.
    pub requests_per_line: usize,
    /// The maximum number of lines that have requests at once.
    pub lines: usize,
}

impl Queue {
    /// An empty queue.
    pub fn new() -> Queue
        ensures { result ≡ [] }
    {
        Queue {
            requests: ArrayVec::new(),
        }
    }

    /// The number of requests.
    pub fn len(&self) -> usize
        ensures { result ≡ length self.now }
    {
        self.requests.len()
    }

    /// The requests, in the order of arrival.
    pub(crate) fn as_slice(&self) -> &[Request]
        ensures value { result.now ≡ self.now }
        ensures room { length result.now ≤ 32 }
    {
        self.requests.as_slice()
    }

    /// The request at a place, counted from 0 in the order of arrival.
    pub fn request_at(&self, place: usize) -> Option<Request>
        ensures { result ≡ slice_get self.now place }
    {
        self.requests.get(place).copied()
    }

    /// The request of a warp, if it has one.
    pub fn request_of(&self, warp: u32) -> Option<Request>
        ensures { result ≡ request_of self.now warp }
    {
        self.requests
            .iter()
            .find(|request| request.warp == warp)
            .copied()
    }

    /// Adds a request at the end.
    pub(crate) fn push(&mut self, request: Request)
        requires { length self.old < 32 }
        ensures { self.new ≡ self.old ++ request ∷ [] }
    {
        self.requests.push(request);
    }

    /// Removes a warp's request.
    pub fn remove(&mut self, warp: u32)
        ensures { self.new ≡ queue_without self.old warp }
    {
        self.requests.retain(|request| request.warp != warp);
    }

    /// Whether a request waits for a line.
    pub fn any_on(&self, line: u32) -> bool
        ensures { result ≡ nat_lt 0 (length (requests_on self.now line)) }
    {
        self.requests.iter().any(|request| request.line == line)
    }

    /// The number of requests for a line.
    pub fn count_on(&self, line: u32) -> usize
        ensures { result ≡ length (requests_on self.now line) }
    {
        self.requests
            .iter()
            .filter(|request| request.line == line)
            .count()
    }

    /// The number of lines that have requests.
    pub fn count_lines(&self) -> usize
        ensures { result ≡ length (distinct_numbers (waiting_lines self.now)) }
    {
        let mut lines = ArrayVec::new();
        for request in self.requests.as_slice() {
            push_new(&mut lines, request.line);
        }
        lines.len()
    }

    /// Whether there is no room for one more request for a line: the line has its maximum number of
    /// requests, or it has none while the maximum number of lines have some.
    pub fn is_full(&self, line: u32, limits: QueueLimits) -> bool
        ensures { result ≡ is_full limits.requests_per_line limits.lines self.now line }
    {
        let here = self.count_on(line);
        here >= limits.requests_per_line || (here == 0 && self.count_lines() >= limits.lines)
    }
}
