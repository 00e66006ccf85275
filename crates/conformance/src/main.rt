//! Conformance: the stored listings, the two version books on random calls, and every word that the
//! program uses. The tests make calls of the machine, whose answers were worked out from the rules
//! by hand.
#![tactic(auto)]

mod line_view;
mod listings;
mod promises;
mod random_calls;
#[cfg(test)]
mod tests;
mod words;

use listings::compare_listings;
use random_calls::print_random_calls;
use words::print_words;

fn main(rt: HostRuntime) -> anyhow::Result<()> {
    compare_listings(&rt)?;
    print_random_calls(&rt)?;
    print_words(&rt)
}
