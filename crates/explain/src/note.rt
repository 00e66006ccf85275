//! Notes: the indented lines under a row.
ghost use Rattle.std.specs.Prelude.{◌≡◌, ◌++◌, IfOk, string_bytes};
ghost use Rattle.explain.specs.Notes.{AddsNote, indented_line};

use std::alloc::{AllocError, Global};
use std::fmt;

/// Adds a note to the text, each of its lines indented by four blanks. If memory runs out, the text
/// is lost.
#[tactic(auto, using(crate::proofs::Lines::no_line, crate::proofs::Lines::one_more, crate::proofs::Lines::no_feed))]
pub fn add_note(heap: Global, text: String, note: &impl fmt::Display) -> Result<String, AllocError>
    ensures { IfOk result (λ t. AddsNote (string_bytes text) (string_bytes t)) }
{
    let words = format!(in heap; "{note}")?;
    let mut all = text;
    for line in words.lines() {
        all = add_line(all, line)?;
    }
    Ok(all)
}

// Adds a line of a note.
fn add_line(mut text: String, line: &str) -> Result<String, AllocError>
    ensures { IfOk result (λ t. string_bytes t ≡ string_bytes text ++ indented_line line.now) }
{
    writeln!(text, "    {line}")?;
    Ok(text)
}
