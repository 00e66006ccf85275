//! Reads and writes of each kind of memory.
ghost use Rattle.std.specs.Prelude.{◌≡◌};
ghost use Rattle.memory.specs.Lines.{word_lines, byte_lines, lines_with};

use crate::byte::ByteMemory;
use crate::memory::Memory;
use crate::split::SplitMemory;
use crate::word::WordMemory;
use protocol::{Fault, Layer, Refusal};
use std::process::Abort;

/// The refusal of a line.
fn no_line(line: u32) -> Fault {
    Fault {
        refusal: Refusal::NoSuchLine,
        layer: Layer::Memory,
        number: u64::from(line),
    }
}

/// Checks that each of these lines has its value.
fn has<M: Memory, const N: usize>(rt: &impl Abort, memory: &M, lines: [(u32, u32); N]) {
    for (line, value) in lines {
        assert_eq!(rt; memory.read(line), Ok(value));
    }
}

/// Checks that reads and writes of each of these lines are refused.
fn lacks<M: Memory, const N: usize>(rt: &impl Abort, memory: &mut M, lines: [u32; N]) {
    for line in lines {
        assert_eq!(rt; memory.read(line), Err(no_line(line)));
        assert_eq!(rt; memory.write(line, 1), Err(no_line(line)));
    }
}

/// The lender of words knows that they hold what was written, once the memory is dropped.
fn stored_word(words: &mut [u32], line: u32, value: u32) -> Result<(), Fault>
    ensures { word_lines words.new ≡ lines_with (word_lines words.old) line value }
{
    let mut memory = WordMemory { words };
    memory.write(line, value)
}

/// The same for bytes.
fn stored_bytes(bytes: &mut [u8], line: u32, value: u32) -> Result<(), Fault>
    ensures { byte_lines bytes.new ≡ lines_with (byte_lines bytes.old) line value }
{
    let mut memory = ByteMemory { bytes };
    memory.write(line, value)
}

#[test]
fn words_are_lines(rt: HostRuntime) {
    let mut words = [10, 20, 30];
    let mut memory = WordMemory { words: &mut words };
    has(&rt, &memory, [(0, 10), (1, 20), (2, 30)]);
    lacks(&rt, &mut memory, [3, 4, u32::MAX]);
    assert_eq!(rt; memory.write(0, 11), Ok(()));
    assert_eq!(rt; memory.write(2, u32::MAX), Ok(()));
    assert_eq!(rt; words, [11, 20, u32::MAX]);
}

#[test]
fn lent_slices_keep_what_was_stored(rt: HostRuntime) {
    let (mut words, mut bytes) = ([1, 2], [1, 2, 3, 4, 5]);
    assert_eq!(rt; stored_word(&mut words, 1, 9), Ok(()));
    assert_eq!(rt; stored_word(&mut words, 2, 8), Err(no_line(2)));
    assert_eq!(rt; words, [1, 9]);
    assert_eq!(rt; stored_bytes(&mut bytes, 0, 9), Ok(()));
    assert_eq!(rt; stored_bytes(&mut bytes, 1, 8), Err(no_line(1)));
    assert_eq!(rt; bytes, [9, 0, 0, 0, 5]);
}

#[test]
fn least_significant_byte_comes_first(rt: HostRuntime) {
    let mut bytes = [1, 2, 3, 4, 5, 6, 7, 8, 9, 10, 11, 12, 13];
    let mut memory = ByteMemory { bytes: &mut bytes };
    has(&rt, &memory, [(0, 0x0403_0201), (2, 0x0c0b_0a09)]);
    lacks(&rt, &mut memory, [3, 4, u32::MAX]);
    assert_eq!(rt; memory.write(1, 0xa1b2_c3d4), Ok(()));
    let written = [1, 2, 3, 4, 0xd4, 0xc3, 0xb2, 0xa1, 9, 10, 11, 12, 13];
    assert_eq!(rt; bytes, written);
}

#[test]
fn odd_bytes_are_no_line(rt: HostRuntime) {
    for length in 0..10usize {
        let mut bytes = [1; 9];
        let mut memory = ByteMemory {
            bytes: &mut bytes[0..length],
        };
        assert_eq!(rt; memory.write(0, 0).is_ok(), length >= 4);
        assert_eq!(rt; memory.read(1).is_ok(), length >= 8);
        assert_eq!(rt; memory.read(2), Err(no_line(2)));
        assert_eq!(rt; bytes[0] == 0 && bytes[3] == 0, length >= 4);
        assert!(rt; bytes[4] == 1);
    }
}

#[test]
fn split_memories_nest(rt: HostRuntime) {
    // Each is named by the first of its lines in the whole; b1 has too few bytes for a line.
    let (mut w0, mut w3, mut w7) = ([0, 40], [30], [70]);
    let (mut b1, mut b2) = ([9, 9, 9], [20, 0, 0, 0, 9]);
    let mut memory = SplitMemory {
        even: SplitMemory {
            even: WordMemory { words: &mut w0 },
            odd: ByteMemory { bytes: &mut b2 },
        },
        odd: SplitMemory {
            even: ByteMemory { bytes: &mut b1 },
            odd: SplitMemory {
                even: WordMemory { words: &mut w3 },
                odd: WordMemory { words: &mut w7 },
            },
        },
    };
    has(&rt, &memory, [(0, 0), (2, 20), (3, 30), (4, 40), (7, 70)]);
    lacks(&rt, &mut memory, [1, 5, 6, 8, 11, u32::MAX]);
    assert_eq!(rt; memory.write(2, 0x0102_0304), Ok(()));
    assert_eq!(rt; memory.write(7, 71), Ok(()));
    assert_eq!(rt; memory.write(4, 41), Ok(()));
    has(&rt, &memory, [(0, 0), (2, 0x0102_0304), (3, 30)]);
    has(&rt, &memory, [(4, 41), (7, 71)]);
    assert_eq!(rt; (w0, w3, w7), ([0, 41], [30], [71]));
    assert_eq!(rt; (b1, b2), ([9, 9, 9], [4, 3, 2, 1, 9]));
}
