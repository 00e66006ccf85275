//! Reads a calls file.
ghost use Rattle.std.specs.Prelude.{◌≡◌, ◌+◌};
ghost use Rattle.calls.specs.Front.{Suffices, longest_file};
ghost use Rattle.calls.specs.Reading.{Reads};

use crate::file::{CallsFile, ReadError};
use crate::header::{LINES, WARPS, find_late, read_numbers, read_shape};
use crate::rows::{ROW_BYTES, ROWS, read_rows};
use protocol::{Fault, Refusal};
use std::alloc::Global;

/// The place of the first stamps, after the marks, the version, the book's letter and the sizes.
const STAMPS_PLACE: usize = 9;

/// Reads a calls file. A damaged header is an error, for the first check that fails. A damaged row
/// ends the calls, and the file's `fault` says what is wrong with it.
pub fn read(heap: Global, bytes: &[u8]) -> Result<CallsFile, ReadError>
    ensures { Reads bytes.now result }
{
    let shape = read_shape(bytes)?;
    let values_place = STAMPS_PLACE + 4 * shape.warps;
    let rows_place = values_place + 4 * shape.lines;
    if bytes.len() < rows_place {
        return Err(ReadError::Damaged(Fault::in_file(Refusal::CutShort, bytes.len())));
    }
    let stamps = read_numbers(heap, &bytes[STAMPS_PLACE..values_place])?;
    if let Some(late) = find_late(stamps.as_slice()) {
        return Err(ReadError::Damaged(Fault::in_file(Refusal::BadStamp, STAMPS_PLACE + 4 * late)));
    }
    let values = read_numbers(heap, &bytes[values_place..rows_place])?;
    let rows = read_rows(heap, bytes, rows_place)?;
    Ok(CallsFile {
        book: shape.book,
        stamps,
        values,
        calls: rows.calls,
        fault: rows.fault,
    })
}

/// How many bytes to read: no byte past them matters. One more than the longest file has.
pub fn enough_bytes() -> usize
    ensures tells { Suffices result }
    ensures one_more { result ≡ longest_file + 1 }
{
    longest_file() + 1
}

// The length of a file with the maximum number of warps, lines and rows.
fn longest_file() -> usize
    ensures { result ≡ longest_file }
{
    STAMPS_PLACE + 4 * WARPS + 4 * LINES + ROW_BYTES * ROWS
}
