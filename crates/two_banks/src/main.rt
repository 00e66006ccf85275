//! The library by example: two warps transfer between lines of a memory of two banks.
#![tactic(auto)]

ghost use Rattle.std.specs.Prelude.{◌≡◌};
ghost use Rattle.harriersofa.specs.MachineMeaning.{state};

use harriersofa::{
    Answer, Book, ByteMemory, ExactBook, Fault, Machine, Memory, SplitMemory, WordMemory,
};
use std::io;

// Even lines are words, and odd lines are four bytes each: line 0 holds 100, line 1 holds 50, line
// 2 holds 7.
fn main(rt: HostRuntime) -> io::Result<()> {
    let mut words = [100, 7];
    let mut bytes = [50, 0, 0, 0];
    let memory = SplitMemory {
        even: WordMemory { words: &mut words },
        odd: ByteMemory { bytes: &mut bytes },
    };
    show(&rt, memory, ExactBook::new())
}

// Works over any memory and any book.
fn show<M: Memory + Drop, B: Book + Drop>(rt: &impl Print, memory: M, book: B) -> io::Result<()> {
    let (mut machine, _) = Machine::make(memory, book, &[20, 10]);
    transfer(rt, &mut machine)?;
    wait_and_fetch(rt, &mut machine)?;
    for line in 0..3 {
        if let Some(value) = line_value(&machine, line) {
            println!(rt; "line {line} is left at {value}")?;
        }
    }
    Ok(())
}

// The value of a line, if the memory has it. The contract speaks of the machine's state, over any
// memory and any book.
fn line_value<M: Memory, B: Book>(machine: &Machine<M, B>, line: u32) -> Option<u32>
    ensures { result ≡ (state M.at B.kind B.model machine.now).lines line }
{
    machine.value(line).ok()
}

// Warp 0 moves 10 from line 0 to line 1. No bank has line 3.
fn transfer<M: Memory, B: Book>(rt: &impl Print, machine: &mut Machine<M, B>) -> io::Result<()> {
    print_answer(rt, "warp 0 begins", machine.begin(0))?;
    if let Some(value) = load(rt, machine, 0, 0)? {
        store(rt, machine, 0, 0, value.saturating_sub(10))?;
    }
    if let Some(value) = load(rt, machine, 0, 1)? {
        store(rt, machine, 0, 1, value.saturating_add(10))?;
    }
    load(rt, machine, 0, 3)?;
    Ok(())
}

// Warp 1 is too early in logical time: its transaction is gone. It begins again at a later stamp,
// waits until warp 0 commits, and fetches the value that warp 0 left.
fn wait_and_fetch<M: Memory, B: Book>(
    rt: &impl Print,
    machine: &mut Machine<M, B>,
) -> io::Result<()> {
    print_answer(rt, "warp 1 begins", machine.begin(1))?;
    load(rt, machine, 1, 1)?;
    print_answer(rt, "warp 1 begins again", machine.begin(1))?;
    load(rt, machine, 1, 1)?;
    let write_stamp = machine.book().write_stamp(1);
    let stores = machine.book().stores(1);
    println!(rt; "  line 1 has write stamp {write_stamp} and {stores} store(s)")?;
    print_answer(rt, "warp 0 commits", machine.commit(0))?;
    print_answer(rt, "warp 1 fetches", machine.fetch(1))?;
    print_answer(rt, "warp 1 commits", machine.commit(1))
}

// Loads a line, and returns its value if the load is answered at once.
fn load<M: Memory, B: Book>(
    rt: &impl Print,
    machine: &mut Machine<M, B>,
    warp: u32,
    line: u32,
) -> io::Result<Option<u32>> {
    let reply = machine.load(warp, line);
    print!(rt; "warp {warp} loads line {line}")?;
    print_answer(rt, "", reply)?;
    match reply {
        Ok(Answer::Val { value }) => Ok(Some(value)),
        Ok(_) | Err(_) => Ok(None),
    }
}

fn store<M: Memory, B: Book>(
    rt: &impl Print,
    machine: &mut Machine<M, B>,
    warp: u32,
    line: u32,
    value: u32,
) -> io::Result<()> {
    let reply = machine.store(warp, line, value);
    print!(rt; "warp {warp} stores {value} to line {line}")?;
    print_answer(rt, "", reply)
}

// Prints a call in words, and its answer or why it is refused.
fn print_answer(rt: &impl Print, call: &str, reply: Result<Answer, Fault>) -> io::Result<()> {
    match reply {
        Ok(Answer::Val { value }) => println!(rt; "{call}: {value}"),
        Ok(Answer::Gone { cause, next }) => {
            let number = cause.number();
            println!(rt; "{call}: gone by cause {number}, goes on at stamp {next}")
        }
        Ok(answer) => println!(rt; "{call}: {}", answer.word()),
        Err(fault) => {
            let number = fault.refusal.number();
            println!(rt; "{call}: refused, number {number}, for {}", fault.number)
        }
    }
}
