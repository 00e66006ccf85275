//! The answers of the machine, and the outcomes of loads and stores.
ghost use Rattle.std.specs.Prelude.{◌≡◌, Some};
ghost use Rattle.protocol.specs.Answers.{answer_of, answer_word, answer_text, cause_number};

use std::fmt;

/// Why a transaction aborts (is `gone`), in the order of the numbers that listings print.
#[derive(Clone, Copy, PartialEq, Eq, Debug)]
pub enum Cause {
    /// A logically later transaction wrote the line.
    WrittenLater = 1,
    /// A logically later transaction read the line of the store.
    ReadLater,
    /// The line is reserved and the queue has no place for the request.
    QueueFull,
    /// The book has no slot for the line of the store.
    NoSlot,
}

/// The outcome of a load or a store.
#[derive(Clone, Copy, PartialEq, Eq, Debug)]
pub enum Outcome {
    /// The load has its value.
    Value { value: u32 },
    /// The store is in the log.
    Stored,
    /// The transaction is aborted, and its warp begins the next one at stamp `next`.
    Gone { cause: Cause, next: u64 },
}

/// The answer to a call. A refused call gets no answer, but an `Err` with a fault.
#[derive(Clone, Copy, PartialEq, Eq, Debug)]
pub enum Answer {
    /// The call is done. Listings print `ok`.
    Done,
    /// The value of the loaded line.
    Val { value: u32 },
    /// The load or the store waits in the queue.
    Wait,
    /// The transaction is aborted, and its warp begins the next one at stamp `next`.
    Gone { cause: Cause, next: u64 },
}

impl Cause {
    /// The number that listings print for the cause.
    pub fn number(self) -> u8
        ensures { result ≡ cause_number self }
    {
        self as u8
    }
}

/// The answer that reports an outcome.
impl From<Outcome> for Answer {
    ghost from_gives = { λ outcome answer. answer ≡ answer_of outcome };

    fn from(outcome: Outcome) -> Answer {
        match outcome {
            Outcome::Value { value } => Answer::Val { value },
            Outcome::Stored => Answer::Done,
            Outcome::Gone { cause, next } => Answer::Gone { cause, next },
        }
    }
}

impl Answer {
    /// The word that listings print for the answer.
    pub fn word(self) -> &'static str
        ensures { result.now ≡ answer_word self }
    {
        match self {
            Answer::Done => "ok",
            Answer::Val { .. } => "val",
            Answer::Wait => "wait",
            Answer::Gone { .. } => "gone",
        }
    }
}

/// The answer as listings print it: its word, then its numbers.
impl fmt::Display for Answer {
    ghost output = { λ answer. Some (answer_text answer) };

    fn fmt<W: fmt::Write>(&self, f: &mut fmt::Formatter<W>) -> fmt::Result {
        let word = self.word();
        match *self {
            Answer::Done | Answer::Wait => write!(f, "{word}"),
            Answer::Val { value } => write!(f, "{word} {value}"),
            Answer::Gone { cause, next } => write!(f, "{word} {} {next}", cause.number()),
        }
    }
}
