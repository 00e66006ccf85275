//! Memories under a machine: one of two banks, and one with more lines than a book.
use crate::tests::rows::{Row, check_rows};
use harriersofa::{ByteMemory, ExactBook, SplitMemory, WordMemory};
use std::test::Fail;

// Lines 0, 2 and 4 are words, and line 1 is four bytes. The last two bytes belong to no line.
const ROWS: [Row; 16] = [
    ('B', 0, 0, 0, "ok"),
    ('L', 0, 0, 0, "val 100"),
    ('L', 0, 1, 0, "val 67305985"),
    ('L', 0, 4, 0, "val 300"),
    ('L', 0, 3, 0, "no 6 memory 3"),
    ('S', 0, 3, 9, "no 6 memory 3"),
    ('L', 0, 6, 0, "no 6 memory 6"),
    ('S', 0, 4095, 9, "no 6 memory 4095"),
    ('S', 0, 4096, 9, "no 6 memory 4096"),
    ('L', 0, 4_294_967_295, 0, "no 6 memory 4294967295"),
    ('S', 0, 1, 258, "ok"),
    ('S', 0, 2, 9, "ok"),
    ('L', 0, 1, 0, "val 258"),
    ('C', 0, 0, 0, "ok"),
    ('B', 0, 0, 0, "ok"),
    ('L', 0, 4, 0, "val 300"),
];

#[test]
fn two_banks(rt: HostRuntime) -> Result<(), Fail> {
    let (mut words, mut bytes) = ([100, 200, 300], [1, 2, 3, 4, 5, 6]);
    let memory = SplitMemory {
        even: WordMemory { words: &mut words },
        odd: ByteMemory { bytes: &mut bytes },
    };
    check_rows(&rt, rt.alloc(), memory, ExactBook::new(), &[0], &ROWS)?;
    assert!(rt; words == [100, 9, 300]);
    assert!(rt; bytes == [2, 1, 0, 0, 5, 6]);
    Ok(())
}

// The memory has line 4,096, but a book has no such line.
const PAST_THE_BOOK: [Row; 4] = [
    ('B', 0, 0, 0, "ok"),
    ('L', 0, 4095, 0, "val 0"),
    ('L', 0, 4096, 0, "no 6 memory 4096"),
    ('S', 0, 4096, 1, "no 6 memory 4096"),
];

#[test]
fn a_line_past_the_book(rt: HostRuntime) -> Result<(), Fail> {
    let mut words = [0; 4097];
    let memory = WordMemory { words: &mut words };
    check_rows(
        &rt,
        rt.alloc(),
        memory,
        ExactBook::new(),
        &[0],
        &PAST_THE_BOOK,
    )
}
