//! Answers, causes and refusals in words.
use protocol::{Answer, Cause, Fault, Refusal};
use std::fmt;

/// An answer, printed in words.
#[derive(Clone, Copy)]
pub struct AnswerInWords {
    pub answer: Answer,
}

/// The answer to a call or its refusal, printed in words.
#[derive(Clone, Copy)]
pub struct ReplyInWords {
    pub reply: Result<Answer, Fault>,
}

/// Why a transaction is gone, in words.
pub fn cause_words(cause: Cause) -> &'static str {
    match cause {
        Cause::WrittenLater => "a logically later transaction wrote the line",
        Cause::ReadLater => "a logically later transaction read the line",
        Cause::QueueFull => "another warp has the line and no more may wait for it",
        Cause::NoSlot => "the book has no slot for the line",
    }
}

/// Why a call is refused, or what is wrong with a file, in words.
pub fn refusal_words(refusal: Refusal) -> &'static str {
    match refusal {
        Refusal::NoSuchWarp => "the machine has no such warp",
        Refusal::WarpIdle => "the warp has no transaction",
        Refusal::WarpNotIdle => "the warp has a transaction already",
        Refusal::OutcomePending =>
            "the warp has a load or a store whose outcome is not fetched yet",
        Refusal::NothingToFetch => "the warp has nothing to fetch",
        Refusal::NoSuchLine => "the memory has no such line",
        Refusal::LogFull => "the transaction has made as many stores as it may",
        Refusal::ClockSpent => "the warp's stamp is past the end of the clock",
        Refusal::BadSize => "there are too few or too many warps or lines",
        Refusal::BadStamp => "a first stamp is past the end of the clock",
        Refusal::BadMark => "the file does not begin with G, T and M",
        Refusal::BadVersion => "the file's version is not 1",
        Refusal::CutShort => "the file ends too early",
        Refusal::BadLetter => "the letter names no book or no call",
        Refusal::TooManyRows => "the file goes on after its last row",
    }
}

impl fmt::Display for AnswerInWords {
    fn fmt<W: fmt::Write>(&self, f: &mut fmt::Formatter<W>) -> fmt::Result {
        match self.answer {
            Answer::Done => write!(f, "it is done"),
            Answer::Val { value } => write!(f, "the value is {value}"),
            Answer::Wait => write!(f, "it waits"),
            Answer::Gone { cause, next } => {
                write!(
                    f,
                    "its transaction is gone, since {}; its next stamp is {next}",
                    cause_words(cause)
                )
            }
        }
    }
}

impl fmt::Display for ReplyInWords {
    fn fmt<W: fmt::Write>(&self, f: &mut fmt::Formatter<W>) -> fmt::Result {
        match self.reply {
            Ok(answer) => {
                let answer = AnswerInWords { answer };
                write!(f, "{answer}")
            }
            Err(fault) => {
                let refusal = fault.refusal;
                write!(
                    f,
                    "check {} refuses it: {}",
                    refusal.number(),
                    refusal_words(refusal)
                )
            }
        }
    }
}
