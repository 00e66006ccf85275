//! The end of an explanation: the values of the lines, or what is wrong with the file.
ghost use Rattle.std.specs.Prelude.{IfOk, string_bytes};
ghost use Rattle.listing.specs.Rows.{bad_row, mem_row};
ghost use Rattle.listing.specs.Listing.{end_rows, line_row, mem_rows};
ghost use Rattle.explain.specs.Notes.{AddsRow, AddsRows};

use crate::note::add_note;
use crate::words::{Damage, LineAtEnd};
use book::Book;
use listing::text::{add_bad_row, add_mem_row};
use machine::Machine;
use memory::Memory;
use protocol::Fault;
use std::alloc::{AllocError, Global};

/// Adds the end to the text: what is wrong with the file, or else the lines below a limit.
pub(crate) fn add_end<M: Memory, B: Book>(
    heap: Global,
    text: String,
    machine: &Machine<M, B>,
    found: Option<Fault>,
    limit: u32,
) -> Result<String, AllocError>
    ensures { IfOk result (λ t. AddsRows (end_rows found (M.at machine.now.memory) limit)
        (string_bytes text) (string_bytes t)) }
{
    match found {
        Some(fault) => add_damage(heap, text, fault),
        None => add_lines(heap, text, machine, limit),
    }
}

/// Adds what is wrong with a file.
pub(crate) fn add_damage(heap: Global, mut text: String, fault: Fault) -> Result<String, AllocError>
    ensures { IfOk result (λ t. AddsRow (bad_row fault) (string_bytes text) (string_bytes t)) }
{
    add_bad_row(&mut text, fault)?;
    add_note(heap, text, &Damage { fault })
}

// Adds each line below a limit that the machine's memory has.
#[tactic(auto, using(crate::proofs::Ends::no_rows, crate::proofs::Ends::one_row_more))]
fn add_lines<M: Memory, B: Book>(
    heap: Global,
    text: String,
    machine: &Machine<M, B>,
    limit: u32,
) -> Result<String, AllocError>
    ensures { IfOk result (λ t. AddsRows (mem_rows (M.at machine.now.memory) limit)
        (string_bytes text) (string_bytes t)) }
{
    let mut all = text;
    for line in 0..limit {
        all = add_line(heap, all, machine, line)?;
    }
    Ok(all)
}

// Adds a line, if the memory has it.
fn add_line<M: Memory, B: Book>(
    heap: Global,
    text: String,
    machine: &Machine<M, B>,
    line: u32,
) -> Result<String, AllocError>
    ensures { IfOk result (λ t. AddsRows (line_row line (M.at machine.now.memory line))
        (string_bytes text) (string_bytes t)) }
{
    match machine.value(line) {
        Ok(value) => add_value(heap, text, LineAtEnd { line, value }),
        Err(_) => Ok(text),
    }
}

// Adds a line's value.
fn add_value(heap: Global, mut text: String, at_end: LineAtEnd) -> Result<String, AllocError>
    ensures { IfOk result (λ t. AddsRow (mem_row at_end.line at_end.value)
        (string_bytes text) (string_bytes t)) }
{
    add_mem_row(&mut text, at_end.line, at_end.value)?;
    add_note(heap, text, &at_end)
}
