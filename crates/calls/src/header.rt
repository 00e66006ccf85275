//! The header: marks, version, book, sizes, first stamps and line values.
ghost use Rattle.std.specs.Prelude.{◌≡◌, ◌/◌, ◌<◌, length, position, IfOk, IfSome, MatchResult};
ghost use Rattle.std.specs.Prelude.{nat_lt};
ghost use Rattle.protocol.specs.Limits.{last_stamp};
ghost use Rattle.calls.specs.Format.{four_bytes, numbers};
ghost use Rattle.calls.specs.Headers.{HasVersion, HasShape, IsDamagedBy};

use crate::file::BookKind;
use protocol::{Fault, Refusal, limits};
use std::alloc::{AllocError, Global};

/// The one version of the format.
const VERSION: u16 = 1;

/// The place of the version, after the marks.
const VERSION_PLACE: usize = 3;

/// The place of the book's letter.
const BOOK_PLACE: usize = 5;

/// The place of the numbers of warps and lines.
const SIZES_PLACE: usize = 6;

/// The maximum number of warps.
pub(crate) const WARPS: usize = limits::WARPS as usize;

/// The maximum number of lines.
pub(crate) const LINES: usize = limits::LINES as usize;

/// The book, and the numbers of warps and lines, which fix where the line values and the rows
/// begin.
#[derive(Clone, Copy)]
pub struct Shape {
    pub book: BookKind,
    pub warps: usize,
    pub lines: usize,
}

/// Reads the header up to the first stamps.
pub fn read_shape(bytes: &[u8]) -> Result<Shape, Fault>
    ensures { MatchResult result (HasShape bytes.now) (IsDamagedBy bytes.now) }
{
    let rest = after_version(bytes)?;
    let [letter, sizes @ ..] = rest else {
        return Err(Fault::in_file(Refusal::BadLetter, BOOK_PLACE));
    };
    let letter = char::from(*letter);
    let book = BookKind::try_from(letter).map_err(|why| Fault::in_file(why, BOOK_PLACE))?;
    let [warps, high, low, ..] = sizes else {
        return Err(Fault::in_file(Refusal::BadSize, SIZES_PLACE));
    };
    let warps = usize::from(*warps);
    let lines = usize::from(u16::from_be_bytes([*high, *low]));
    if warps == 0 || warps > WARPS || lines == 0 || lines > LINES {
        return Err(Fault::in_file(Refusal::BadSize, SIZES_PLACE));
    }
    Ok(Shape { book, warps, lines })
}

// The bytes after the marks and the version.
fn after_version(bytes: &[u8]) -> Result<&[u8], Fault>
    ensures { MatchResult result (λ rest. HasVersion bytes.now rest.now) (IsDamagedBy bytes.now) }
{
    match bytes {
        [b'G', b'T', b'M', high, low, rest @ ..] => {
            if u16::from_be_bytes([*high, *low]) != VERSION {
                return Err(Fault::in_file(Refusal::BadVersion, VERSION_PLACE));
            }
            Ok(rest)
        }
        [b'G', b'T', b'M', ..] => Err(Fault::in_file(Refusal::BadVersion, VERSION_PLACE)),
        _ => Err(Fault::in_file(Refusal::BadMark, 0)),
    }
}

/// The 32-bit numbers in some bytes, most significant byte first.
pub(crate) fn read_numbers(heap: Global, bytes: &[u8]) -> Result<Vec<u32>, AllocError>
    ensures { IfOk result (λ v. v.items ≡ numbers bytes.now 0 (length bytes.now / 4)) }
{
    let (quads, _) = bytes.as_chunks::<4>();
    quads.iter().map(read_number).collect(heap)
}

// The number in four bytes.
fn read_number(quad: &[u8; 4]) -> u32
    ensures { result ≡ four_bytes quad.now 0 }
{
    u32::from_be_bytes(*quad)
}

/// The index of the first stamp that is past the end of the clock.
pub(crate) fn find_late(stamps: &[u32]) -> Option<usize>
    ensures first { result ≡ position (λ stamp. nat_lt last_stamp stamp) stamps.now }
    ensures within { IfSome result (λ number. number < length stamps.now) }
{
    stamps.iter().position(|stamp| *stamp > limits::LAST_STAMP)
}
