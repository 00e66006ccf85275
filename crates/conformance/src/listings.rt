//! The stored listings, each compared with the listing of its calls file.
use report::compare_listing;
use std::fs;

/// Prints for each stored listing that it matched, or the first row that differs and why. The file
/// `names` has one name a line: NAME.gtm is a calls file, and NAME.txt its stored listing.
pub fn compare_listings(rt: &HostRuntime) -> anyhow::Result<()> {
    let names = fs::read_to_string(rt, "names")?;
    for name in names.as_str().lines() {
        compare(rt, name)?;
    }
    Ok(())
}

fn compare(rt: &HostRuntime, name: &str) -> anyhow::Result<()> {
    let heap = rt.alloc();
    let calls = fs::read(rt, format!(in heap; "{name}.gtm")?)?;
    let stored = fs::read(rt, format!(in heap; "{name}.txt")?)?;
    let report = compare_listing(heap, calls.as_slice(), stored.as_slice())?;
    if report.matches {
        println!(rt; "{name} matched")?;
    } else {
        print!(rt; "{name}: {}", report.text.as_str())?;
    }
    Ok(())
}
