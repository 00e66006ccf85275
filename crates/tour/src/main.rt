//! Prints docs/TOUR.md: what golden prints for an example, by the libraries that golden is made of.
#![tactic(auto)]

use explain::annotate;
use listing::list;
use report::compare_listing;
use std::fs;

const INTRODUCTION: &str = "\
# A tour of golden

`examples/transfers.gtm` has two accounts, line 0 with 100 and line 1 with 50, and two warps, at
stamps 20 and 10. Each warp moves 10 from one account to the other: warp 0 from line 0 to line 1,
warp 1 the other way. They conflict: warp 0 commits its transfer, and warp 1 has to begin again.
";

fn main(rt: HostRuntime) -> anyhow::Result<()> {
    tour(&rt)
}

fn tour(rt: &HostRuntime) -> anyhow::Result<()> {
    let heap = rt.alloc();
    let calls = fs::read(rt, "transfers.gtm")?;
    let theirs = fs::read(rt, "theirs.txt")?;
    println!(rt; "{INTRODUCTION}")?;
    let listed = list(heap, calls.as_slice())?;
    show(rt, "golden transfers.gtm", listed.as_str())?;
    println!(rt; "\n## A listing that matches\n")?;
    let same = compare_listing(heap, calls.as_slice(), listed.as_bytes())?;
    show(
        rt,
        "golden --compare ours.txt transfers.gtm",
        same.text.as_str(),
    )?;
    println!(rt;
        "\n## A listing that differs\n\nThe simulator let the load of row 7 through. The status is 1.\n"
    )?;
    let other = compare_listing(heap, calls.as_slice(), theirs.as_slice())?;
    show(
        rt,
        "golden --compare theirs.txt transfers.gtm",
        other.text.as_str(),
    )?;
    println!(rt; "\n## Why each row is as it is\n")?;
    let explained = annotate(heap, calls.as_slice())?;
    show(rt, "golden --explain transfers.gtm", explained.as_str())
}

// Prints a command and its output.
fn show(rt: &HostRuntime, command: &str, output: &str) -> anyhow::Result<()> {
    print!(rt; "```\n$ {command}\n{output}```\n")?;
    Ok(())
}
