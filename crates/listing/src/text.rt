//! Rows that are added to a text. If memory runs out, the text stays as it was: a row is added
//! whole or not at all.
ghost use Rattle.std.specs.Prelude.{◌≡◌, ◌++◌, OnOk, OnErr, string_bytes};
ghost use Rattle.listing.specs.Rows.{mem_row, bad_row, call_row};

use crate::row::Tail;
use protocol::{Answer, Call, Fault};
use std::alloc::AllocError;

/// Adds the row of a line's value at the end of a run.
pub fn add_mem_row(text: &mut String, line: u32, value: u32) -> Result<(), AllocError>
    ensures row { OnOk result
        (string_bytes text.new ≡ string_bytes text.old ++ mem_row line value) }
    ensures kept { OnErr result (string_bytes text.new ≡ string_bytes text.old) }
{
    text.push_str(Tail::of_line(line, value).as_str())
}

/// Adds the row that says what is wrong with a calls file, the last row of its listing.
pub fn add_bad_row(text: &mut String, fault: Fault) -> Result<(), AllocError>
    ensures row { OnOk result
        (string_bytes text.new ≡ string_bytes text.old ++ bad_row fault) }
    ensures kept { OnErr result (string_bytes text.new ≡ string_bytes text.old) }
{
    text.push_str(Tail::of_damage(fault).as_str())
}

/// Adds the row of a call: its place in the run, counted from 1, its letter, its warp, and its
/// answer or its refusal.
pub fn add_call_row(
    text: &mut String,
    place: u64,
    call: Call,
    reply: Result<Answer, Fault>,
) -> Result<(), AllocError>
    ensures row { OnOk result
        (string_bytes text.new ≡ string_bytes text.old ++ call_row place call reply) }
    ensures kept { OnErr result (string_bytes text.new ≡ string_bytes text.old) }
{
    text.push_str(Tail::of_call(place, call, reply).as_str())
}
