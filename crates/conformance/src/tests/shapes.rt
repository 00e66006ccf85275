//! Shapes of a machine: the refused ones, after which the machine has no warps, and the largest.
use crate::tests::rows::{Row, fault_text, make_calls};
use harriersofa::{Book, ExactBook, Machine, WordMemory};
use std::alloc::Global;
use std::process::Abort;
use std::test::Fail;

const NO_WARP: [Row; 6] = [
    ('B', 0, 0, 0, "no 1 machine 0"),
    ('L', 0, 0, 0, "no 1 machine 0"),
    ('S', 1, 0, 3, "no 1 machine 1"),
    ('C', 0, 0, 0, "no 1 machine 0"),
    ('D', 0, 0, 0, "no 1 machine 0"),
    ('F', 32, 0, 0, "no 1 machine 32"),
];

/// A book that is not new: its latest stamp is 5.
fn used_book() -> ExactBook {
    let mut book = ExactBook::new();
    let _ = book.reserve(3, (4, 0));
    book
}

fn check_refusal(
    rt: &impl Abort,
    heap: Global,
    book: ExactBook,
    stamps: &[u32],
    refusal: &str,
) -> Result<(), Fail> {
    let mut words = [7];
    let memory = WordMemory { words: &mut words };
    let (mut machine, shape) = Machine::make(memory, book, stamps);
    let fault = shape.err().ok_or("the shape is taken")?;
    let text = fault_text(heap, fault)?;
    assert_eq!(rt; text.as_str(), refusal);
    assert!(rt; machine.warp_count() == 0);
    make_calls(rt, heap, &mut machine, &NO_WARP)
}

#[test]
fn refused_shapes(rt: HostRuntime) -> Result<(), Fail> {
    let heap = rt.alloc();
    let too_many = [4_000_000_000; 33];
    let late = [0, 1_000_000_000, 1_000_000_001, 4_000_000_000];
    check_refusal(&rt, heap, ExactBook::new(), &[], "no 9 machine 0")?;
    check_refusal(&rt, heap, used_book(), &too_many, "no 9 machine 33")?;
    check_refusal(&rt, heap, used_book(), &late, "no 10 machine 1000000001")?;
    check_refusal(&rt, heap, used_book(), &[0, 0], "no 10 machine 5")
}

#[test]
fn the_largest_shape(rt: HostRuntime) -> Result<(), Fail> {
    let mut words = [7];
    let memory = WordMemory { words: &mut words };
    let (mut machine, shape) = Machine::make(memory, ExactBook::new(), &[1_000_000_000; 32]);
    assert!(rt; shape.is_ok());
    assert!(rt; machine.warp_count() == 32);
    let rows = [('B', 31, 0, 0, "ok"), ('B', 32, 0, 0, "no 1 machine 32")];
    make_calls(&rt, rt.alloc(), &mut machine, &rows)
}
