//! The rows of a calls file, one call each.
ghost use Rattle.std.specs.Prelude.{◌≡◌, ◌^◌, ◌<◌, ◌≤◌, length, cond, IfOk, nat_le, nat_lt};
ghost use Rattle.calls.specs.Format.{row_result, rows_from, row_limit, file_fault_unless};
ghost use Rattle.protocol.specs.declared.fault.Refusal.TheVariants.{CutShort, TooManyRows};
ghost use Rattle.calls.specs.RowReading.{HoldsRows};

use protocol::{Call, Fault, Op, Refusal};
use std::alloc::{AllocError, Global};

/// The maximum number of rows.
pub(crate) const ROWS: usize = 4096;

/// The size of a row.
pub(crate) const ROW_BYTES: usize = 8;

/// The calls of the rows, and what is wrong after them, if anything.
#[derive(Drop)]
pub struct RowsRead {
    pub calls: Vec<Call>,
    pub fault: Option<Fault>,
}

/// The call in a row's bytes. A fault names the place where the row begins.
fn read_row(row: &[u8; ROW_BYTES], place: usize) -> Result<Call, Fault>
    ensures { result ≡ row_result row.now place }
{
    let [letter, warp, high, low, a, b, c, d] = row;
    let line = u32::from(u16::from_be_bytes([*high, *low]));
    let value = u32::from_be_bytes([*a, *b, *c, *d]);
    let op = Op::named(char::from(*letter), line, value).ok_or(Fault::in_file(
        Refusal::BadLetter,
        place,
    ))?;
    Ok(Call {
        warp: u32::from(*warp),
        op,
    })
}

/// The rows from a place of the file to its end. It takes all bytes of the file, since faults name
/// places in the file.
pub(crate) fn read_rows(heap: Global, bytes: &[u8], start: usize) -> Result<RowsRead, AllocError>
    ensures { IfOk result (λ read. HoldsRows read (rows_from bytes.now row_limit start)) }
{
    let rest = bytes.get(start..).unwrap_or(&[]);
    let (rows, _) = rest.as_chunks::<ROW_BYTES>();
    let rows = &rows[..rows.len().min(ROWS)];
    let mut calls = Vec::with_capacity(heap, rows.len())?;
    for row in rows {
        let place = start + ROW_BYTES * calls.len();
        match read_row(row, place) {
            Ok(call) => calls.push_reserved(call),
            Err(fault) => return Ok(RowsRead {
                calls,
                fault: Some(fault),
            }),
        }
    }
    let fault = after_rows(bytes, start + ROW_BYTES * rows.len(), rows.len());
    Ok(RowsRead { calls, fault })
}

// The fault after the rows that are read, if bytes follow them: a row cut short, or one row too
// many.
fn after_rows(bytes: &[u8], place: usize, rows: usize) -> Option<Fault>
    ensures { result ≡ file_fault_unless (nat_le (length bytes.now) place)
        (cond (nat_lt rows row_limit) CutShort TooManyRows) place }
{
    let refusal = if rows < ROWS {
        Refusal::CutShort
    } else {
        Refusal::TooManyRows
    };
    (place < bytes.len()).then_some(Fault::in_file(refusal, place))
}
