//! Facts in words.
use crate::after::{After, Settled, Wait};
use crate::answer_words::{AnswerInWords, ReplyInWords, refusal_words};
use crate::before::LineFacts;
use crate::call::CallFacts;
use crate::call_words::CallInWords;
use protocol::{Cause, Fault};
use rules::Verdict;
use std::fmt;

/// A call and its answer, and then, each on lines of its own, what it found and what it left.
impl fmt::Display for CallFacts {
    fn fmt<W: fmt::Write>(&self, f: &mut fmt::Formatter<W>) -> fmt::Result {
        let call = CallInWords { call: self.call };
        let reply = ReplyInWords { reply: self.reply };
        writeln!(f, "{call}: {reply}")?;
        // A refused call does not reach the access steps.
        if self.reply.is_ok()
            && let Some(verdict) = self.before.verdict
        {
            writeln!(f, "at stamp {}, {}", self.before.stamp, step_words(verdict))?;
        }
        if let Some(line) = self.before.line {
            writeln!(f, "{line}")?;
        }
        let after = &self.after;
        write!(f, "{after}")
    }
}

/// The access step that gave a verdict.
pub fn step_words(verdict: Verdict) -> &'static str {
    match verdict {
        Verdict::OwnLine => "step 1: its warp has the line",
        Verdict::Gone { cause, .. } => match cause {
            Cause::WrittenLater => "step 2: the line's write stamp is above its own",
            Cause::ReadLater => "step 3: the line's read mark is later than its own time",
            Cause::QueueFull =>
                "step 4: another warp has the line, and there is no room to wait for it",
            Cause::NoSlot => "step 5: no warp has the line, and there is no slot for it",
        },
        Verdict::MustWait => "step 4: another warp has the line, and there is room to wait for it",
        Verdict::GoOn => "step 5: no warp has the line",
    }
}

/// What the book says of a line before a call, in two lines of words.
impl fmt::Display for LineFacts {
    fn fmt<W: fmt::Write>(&self, f: &mut fmt::Formatter<W>) -> fmt::Result {
        let LineFacts {
            line,
            written,
            read,
            stores,
            owner,
        } = *self;
        let (stamp, warp) = read;
        let owner = Owner { warp: owner };
        writeln!(
            f,
            "line {line} before: write stamp {written}, read mark {stamp} by warp {warp}"
        )?;
        write!(f, "stores that hold it before: {stores}, owner: {owner}")
    }
}

/// What a call left, each fact on a line of its own.
impl fmt::Display for After {
    fn fmt<W: fmt::Write>(&self, f: &mut fmt::Formatter<W>) -> fmt::Result {
        for settled in self.settled.iter() {
            writeln!(f, "{settled}")?;
        }
        for wait in self.waits.iter() {
            writeln!(f, "{wait}")?;
        }
        Ok(())
    }
}

impl fmt::Display for Settled {
    fn fmt<W: fmt::Write>(&self, f: &mut fmt::Formatter<W>) -> fmt::Result {
        let Settled {
            warp,
            line,
            outcome,
        } = *self;
        let answer = AnswerInWords {
            answer: outcome.into(),
        };
        write!(
            f,
            "settles what warp {warp} waited for at line {line}: {answer}"
        )
    }
}

impl fmt::Display for Wait {
    fn fmt<W: fmt::Write>(&self, f: &mut fmt::Formatter<W>) -> fmt::Result {
        let Wait { warp, line, owner } = *self;
        let owner = Owner { warp: owner };
        write!(
            f,
            "after: warp {warp} waits for line {line}, held by {owner}"
        )
    }
}

/// The warp that has a line, in words.
#[derive(Clone, Copy)]
pub struct Owner {
    pub warp: Option<u32>,
}

impl fmt::Display for Owner {
    fn fmt<W: fmt::Write>(&self, f: &mut fmt::Formatter<W>) -> fmt::Result {
        match self.warp {
            Some(warp) => write!(f, "warp {warp}"),
            None => write!(f, "nobody"),
        }
    }
}

/// What is wrong with a calls file, and at which byte.
#[derive(Clone, Copy)]
pub struct Damage {
    pub fault: Fault,
}

impl fmt::Display for Damage {
    fn fmt<W: fmt::Write>(&self, f: &mut fmt::Formatter<W>) -> fmt::Result {
        let Fault {
            refusal,
            number,
            ..
        } = self.fault;
        write!(
            f,
            "the file is damaged at byte {number}: {}",
            refusal_words(refusal)
        )
    }
}

/// A line's value at the end of a run.
#[derive(Clone, Copy)]
pub struct LineAtEnd {
    pub line: u32,
    pub value: u32,
}

impl fmt::Display for LineAtEnd {
    fn fmt<W: fmt::Write>(&self, f: &mut fmt::Formatter<W>) -> fmt::Result {
        let LineAtEnd { line, value } = *self;
        write!(f, "line {line} holds {value} at the end")
    }
}
