//! Whether a listing is that of a calls file, and if not, where it differs first and why our row is
//! as it is.
ghost use Rattle.std.specs.Prelude.{◌≡◌, ◌↔◌, IfOk, IsTrue};
ghost use Rattle.listing.specs.Listing.{listing_text};

use crate::compare::{Comparison, find_difference};
use crate::shown::{add_lines_under, add_shown};
use explain::annotate;
use listing::list;
use std::alloc::{AllocError, Global};

/// Whether a listing matches, and a text that says so or shows the first difference.
#[derive(Drop)]
pub struct Report {
    pub matches: bool,
    pub text: String,
}

/// Compares a listing with that of a calls file. The only error is that memory runs out.
pub fn compare_listing(heap: Global, calls: &[u8], listing: &[u8]) -> Result<Report, AllocError>
    ensures { IfOk result (λ r. IsTrue r.matches ↔ (listing_text calls.now ≡ listing.now)) }
{
    let ours = list(heap, calls)?;
    match find_difference(ours.as_bytes(), listing) {
        Comparison::Match { rows } => Ok(Report {
            matches: true,
            text: format!(in heap; "match: {rows} rows\n")?,
        }),
        Comparison::Differs { row, ours, theirs } => Ok(Report {
            matches: false,
            text: describe_difference(heap, calls, row, ours, theirs)?,
        }),
    }
}

// The row that differs, in both listings, and why our row is as it is.
fn describe_difference(
    heap: Global,
    calls: &[u8],
    row: usize,
    ours: Option<&[u8]>,
    theirs: Option<&[u8]>,
) -> Result<String, AllocError> {
    let mut text = format!(in heap; "row {row} differs\n")?;
    text.push_str("    ours:   ")?;
    let mut text = add_shown(text, ours)?;
    text.push_str("    theirs: ")?;
    let mut text = add_shown(text, theirs)?;
    if ours.is_some() {
        text.push_str("why ours is so:\n")?;
        text = add_lines_under(text, annotate(heap, calls)?.as_str(), row)?;
    }
    Ok(text)
}
