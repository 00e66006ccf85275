//! The words of the program: every cause, every refusal, and explanations in which every kind of
//! note occurs.
use explain::annotate;
use explain::answer_words::{cause_words, refusal_words};
use harriersofa::{Cause, Refusal};
use std::fs;

/// The causes, in the order of their numbers.
const CAUSES: [Cause; 4] = [
    Cause::WrittenLater,
    Cause::ReadLater,
    Cause::QueueFull,
    Cause::NoSlot,
];

/// The refusals, in the order of their numbers.
const REFUSALS: [Refusal; 15] = [
    Refusal::NoSuchWarp,
    Refusal::WarpIdle,
    Refusal::WarpNotIdle,
    Refusal::OutcomePending,
    Refusal::NothingToFetch,
    Refusal::NoSuchLine,
    Refusal::LogFull,
    Refusal::ClockSpent,
    Refusal::BadSize,
    Refusal::BadStamp,
    Refusal::BadMark,
    Refusal::BadVersion,
    Refusal::CutShort,
    Refusal::BadLetter,
    Refusal::TooManyRows,
];

/// Prints the words for each cause and each refusal, and the explanations of three calls files.
pub fn print_words(rt: &HostRuntime) -> anyhow::Result<()> {
    for cause in CAUSES {
        println!(rt; "gone {}: {}", cause.number(), cause_words(cause))?;
    }
    for refusal in REFUSALS {
        println!(rt; "no {}: {}", refusal.number(), refusal_words(refusal))?;
    }
    for name in ["exact.gtm", "condensed.gtm", "damaged.gtm"] {
        print_explanation(rt, name)?;
    }
    Ok(())
}

fn print_explanation(rt: &HostRuntime, name: &str) -> anyhow::Result<()> {
    let calls = fs::read(rt, name)?;
    let explained = annotate(rt.alloc(), calls.as_slice())?;
    print!(rt; "\n{name}\n{}", explained.as_str())?;
    Ok(())
}
