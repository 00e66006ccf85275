//! Rows as the report shows them.
use std::alloc::AllocError;

/// Adds a row on a line of its own, without its line feed. A row that lacks one is marked, and so
/// is the end of a listing.
pub(crate) fn add_shown(mut text: String, row: Option<&[u8]>) -> Result<String, AllocError> {
    match row {
        Some([shown @ .., b'\n']) => writeln!(text, "{}", shown.escape_ascii())?,
        Some(shown) => writeln!(text, "{} (without a line feed)", shown.escape_ascii())?,
        None => writeln!(text, "(no row, the listing has ended)")?,
    }
    Ok(text)
}

/// Adds the indented lines that stand under a row of an explanation.
pub(crate) fn add_lines_under(
    text: String,
    explanation: &str,
    row: usize,
) -> Result<String, AllocError> {
    let mut all = text;
    let mut place = 0usize;
    for line in explanation.lines() {
        if line.starts_with(' ') {
            if place == row {
                writeln!(all, "{line}")?;
            }
        } else {
            place = place.saturating_add(1);
        }
    }
    Ok(all)
}
