//! Rows of calls with the answers that they must get, and functions that make the calls and check
//! the answers.
use harriersofa::{
    Answer, Book, Call, ExactBook, Fault, Layer, Machine, Memory, Op, WordMemory, run_to_vec,
};
use std::alloc::{AllocError, Global};
use std::process::Abort;
use std::test::Fail;

/// A call's letter, its warp, line and value (0 if the call takes none), and its answer as listings
/// print it. A refusal is followed by its layer and its offending number.
pub type Row<'a> = (char, u32, u32, u32, &'a str);

fn layer_word(layer: Layer) -> &'static str {
    match layer {
        Layer::Memory => "memory",
        Layer::File => "file",
        Layer::Machine => "machine",
    }
}

/// A refusal as a row writes it.
pub fn fault_text(heap: Global, fault: Fault) -> Result<String, AllocError> {
    let layer = layer_word(fault.layer);
    format!(in heap; "{fault} {layer} {}", fault.number)
}

/// An answer or a refusal as a row writes it.
fn reply_text(heap: Global, reply: Result<Answer, Fault>) -> Result<String, AllocError> {
    match reply {
        Ok(answer) => format!(in heap; "{answer}"),
        Err(fault) => fault_text(heap, fault),
    }
}

pub fn call_of(row: &Row) -> Result<Call, Fail> {
    let (letter, warp, line, value, _) = *row;
    let op = Op::named(letter, line, value).ok_or("no call has the letter")?;
    Ok(Call { warp, op })
}

/// Checks that an answer or a refusal is the row's.
pub fn check_reply(
    rt: &impl Abort,
    heap: Global,
    row: &Row,
    reply: Result<Answer, Fault>,
) -> Result<(), Fail> {
    let text = reply_text(heap, reply)?;
    assert_eq!(rt;
        text.as_str(),
        row.4,
        "{} {} {} {}",
        row.0,
        row.1,
        row.2,
        row.3
    );
    Ok(())
}

/// Makes a call by the method for its kind.
fn make_call<M: Memory, B: Book>(machine: &mut Machine<M, B>, call: Call) -> Result<Answer, Fault> {
    let Call { warp, op } = call;
    match op {
        Op::Begin => machine.begin(warp),
        Op::Load { line } => machine.load(warp, line),
        Op::Store { line, value } => machine.store(warp, line, value),
        Op::Commit => machine.commit(warp),
        Op::Drop => machine.discard(warp),
        Op::Fetch => machine.fetch(warp),
    }
}

/// Makes each row's call, and checks its answer.
pub fn make_calls<M: Memory, B: Book>(
    rt: &impl Abort,
    heap: Global,
    machine: &mut Machine<M, B>,
    rows: &[Row],
) -> Result<(), Fail> {
    for row in rows {
        check_reply(rt, heap, row, make_call(machine, call_of(row)?))?;
    }
    Ok(())
}

/// Makes a machine and the rows' calls of it, and checks their answers.
pub fn check_rows<M: Memory + Drop, B: Book + Drop>(
    rt: &impl Abort,
    heap: Global,
    memory: M,
    book: B,
    stamps: &[u32],
    rows: &[Row],
) -> Result<(), Fail> {
    let (mut machine, shape) = Machine::make(memory, book, stamps);
    assert!(rt; shape.is_ok());
    make_calls(rt, heap, &mut machine, rows)
}

/// The same over words and the exact book. Checks too what the words hold at the end.
pub fn check_run(
    rt: &impl Abort,
    heap: Global,
    words: &mut [u32],
    stamps: &[u32],
    rows: &[Row],
    left: &[u32],
) -> Result<(), Fail> {
    check_rows(
        rt,
        heap,
        WordMemory { words },
        ExactBook::new(),
        stamps,
        rows,
    )?;
    assert!(rt; *words == *left);
    Ok(())
}

/// The calls of rows.
pub fn calls_of(heap: Global, rows: &[Row]) -> Result<Vec<Call>, Fail> {
    let mut calls = Vec::new(heap);
    for row in rows {
        calls.push(call_of(row)?)?;
    }
    Ok(calls)
}

/// Makes all the calls by `run_to_vec` over words and the exact book, and checks their answers.
pub fn check_run_at_once(
    rt: &impl Abort,
    heap: Global,
    words: &mut [u32],
    stamps: &[u32],
    rows: &[Row],
) -> Result<(), Fail> {
    let calls = calls_of(heap, rows)?;
    let (ran, replies) = run_to_vec(
        heap,
        WordMemory { words },
        ExactBook::new(),
        stamps,
        calls.as_slice(),
    )?;
    assert!(rt; ran.shape.is_ok());
    assert!(rt; replies.len() == rows.len());
    for (row, reply) in rows.iter().zip(replies.as_slice()) {
        check_reply(rt, heap, row, *reply)?;
    }
    Ok(())
}
