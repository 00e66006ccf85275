//! Damaged and sound files, by example.
use crate::file::{BookKind, CallsFile, ReadError};
use crate::reader::read;
use protocol::{Call, Fault, Layer, Op, Refusal};
use std::alloc::Global;
use std::process::Abort;
use std::test::Fail;

const SOUND: &[u8] = b"GTM\x00\x01E\x01\x00\x01\x00\x00\x00\x05\x00\x00\x00\x07";

// A damaged header: the number and the place of its fault.
fn damaged(
    rt: &impl Abort,
    heap: Global,
    bytes: &[u8],
    number: u8,
    place: u64,
) -> Result<(), Fail> {
    match read(heap, bytes) {
        Err(ReadError::Damaged(fault)) => {
            assert_eq!(rt; fault.refusal.number(), number);
            assert!(rt; fault.layer == Layer::File);
            assert_eq!(rt; fault.number, place);
            Ok(())
        }
        _ => Err(Fail::new("the header was read")),
    }
}

// The content of a file whose header is sound.
fn sound(heap: Global, bytes: &[u8]) -> Result<CallsFile, Fail> {
    read(heap, bytes).map_err(|_| Fail::new("the header is damaged"))
}

#[test]
fn marks_and_version(rt: HostRuntime) -> Result<(), Fail> {
    let heap = rt.alloc();
    damaged(&rt, heap, b"", 11, 0)?;
    damaged(&rt, heap, b"GT", 11, 0)?;
    damaged(&rt, heap, b"gTM\x00\x01", 11, 0)?;
    damaged(&rt, heap, b"GTN\x00\x02", 11, 0)?;
    damaged(&rt, heap, b"GTM", 12, 3)?;
    damaged(&rt, heap, b"GTM\x00", 12, 3)?;
    damaged(&rt, heap, b"GTM\x01", 12, 3)?;
    damaged(&rt, heap, b"GTM\x00\x02X", 12, 3)?;
    damaged(&rt, heap, b"GTM\x01\x00E", 12, 3)
}

#[test]
fn book_and_sizes(rt: HostRuntime) -> Result<(), Fail> {
    let heap = rt.alloc();
    damaged(&rt, heap, b"GTM\x00\x01", 14, 5)?;
    damaged(&rt, heap, b"GTM\x00\x01e\x00", 14, 5)?;
    damaged(&rt, heap, b"GTM\x00\x01E", 9, 6)?;
    damaged(&rt, heap, b"GTM\x00\x01E\x01\x01", 9, 6)?;
    damaged(&rt, heap, b"GTM\x00\x01E\x00\x00\x01", 9, 6)?;
    damaged(&rt, heap, b"GTM\x00\x01E\x21\x00\x01", 9, 6)?;
    damaged(&rt, heap, b"GTM\x00\x01C\x01\x00\x00", 9, 6)?;
    damaged(&rt, heap, b"GTM\x00\x01C\x01\x10\x01", 9, 6)?;
    damaged(&rt, heap, b"GTM\x00\x01C\x20\x10\x00", 13, 9)
}

#[test]
fn book_letters_there_and_back(rt: HostRuntime) {
    for (book, letter) in [(BookKind::Exact, 'E'), (BookKind::Condensed, 'C')] {
        assert_eq!(rt; book.letter(), letter);
        assert_eq!(rt; BookKind::try_from(letter), Ok(book));
    }
    for letter in ['e', 'c', 'D', '\0', 'Е', '\u{10ffff}'] {
        assert_eq!(rt; BookKind::try_from(letter), Err(Refusal::BadLetter));
    }
}

#[test]
fn stamps_and_values(rt: HostRuntime) -> Result<(), Fail> {
    let heap = rt.alloc();
    damaged(&rt, heap, b"GTM\x00\x01E\x01\x00\x01", 13, 9)?;
    damaged(
        &rt,
        heap,
        b"GTM\x00\x01E\x01\x00\x01\xff\xff\xff\xff\x00\x00\x00",
        13,
        16,
    )?;
    damaged(
        &rt,
        heap,
        b"GTM\x00\x01E\x01\x00\x01\x3b\x9a\xca\x01\x00\x00\x00\x00X",
        10,
        9,
    )?;
    damaged(
        &rt,
        heap,
        b"GTM\x00\x01E\x02\x00\x01\x3b\x9a\xca\x00\xff\x00\x00\x00\x00\x00\x00\x00",
        10,
        13,
    )?;
    let file = sound(
        heap,
        b"GTM\x00\x01C\x01\x00\x02\x3b\x9a\xca\x00\x00\x00\x01\x02\xff\xff\xff\xff",
    )?;
    assert_eq!(rt; file.book, BookKind::Condensed);
    assert!(rt; file.stamps.as_slice() == [1_000_000_000u32].as_slice());
    assert!(rt; file.values.as_slice() == [258u32, 4_294_967_295].as_slice());
    assert!(rt; file.calls.is_empty());
    assert_eq!(rt; file.fault, None);
    Ok(())
}

// The sound header with some rows after it.
fn with_rows(heap: Global, rows: &[u8]) -> Result<CallsFile, Fail> {
    let mut bytes = SOUND.to_vec(heap)?;
    bytes.extend_from_slice(rows)?;
    sound(heap, bytes.as_slice())
}

#[test]
fn rows_and_what_they_leave_unread(rt: HostRuntime) -> Result<(), Fail> {
    let heap = rt.alloc();
    let file = with_rows(
        heap,
        b"B\xff\xff\xff\xff\xff\xff\xffS\x01\x02\x03\x04\x05\x06\x07L\x02\x10\x00\x09\x09\x09\x09",
    )?;
    assert_eq!(rt; file.fault, None);
    assert!(rt; file.calls.len() == 3);
    assert_eq!(rt;
        file.calls[0],
        Call {
            warp: 255,
            op: Op::Begin,
        }
    );
    assert_eq!(rt;
        file.calls[1],
        Call {
            warp: 1,
            op: Op::Store {
                line: 515,
                value: 67_438_087,
            },
        }
    );
    assert_eq!(rt;
        file.calls[2],
        Call {
            warp: 2,
            op: Op::Load { line: 4096 },
        }
    );
    Ok(())
}

#[test]
fn a_faulty_row_keeps_the_calls_before_it(rt: HostRuntime) -> Result<(), Fail> {
    let heap = rt.alloc();
    let cut = with_rows(
        heap,
        b"C\x00\x00\x00\x00\x00\x00\x00X\x00\x00\x00\x00\x00\x00",
    )?;
    assert!(rt; cut.calls.len() == 1);
    assert_eq!(rt;
        cut.calls[0],
        Call {
            warp: 0,
            op: Op::Commit,
        }
    );
    assert_eq!(rt; cut.fault, Some(Fault::in_file(Refusal::CutShort, 25)));
    let letter = with_rows(
        heap,
        b"F\x03\x00\x00\x00\x00\x00\x00X\x00\x00\x00\x00\x00\x00\x00D\x00\x00\x00\x00\x00\x00\x00",
    )?;
    assert!(rt; letter.calls.len() == 1);
    assert_eq!(rt;
        letter.calls[0],
        Call {
            warp: 3,
            op: Op::Fetch,
        }
    );
    assert_eq!(rt; letter.fault, Some(Fault::in_file(Refusal::BadLetter, 25)));
    Ok(())
}

#[test]
fn a_byte_after_the_last_row(rt: HostRuntime) -> Result<(), Fail> {
    let heap = rt.alloc();
    let mut bytes = SOUND.to_vec(heap)?;
    for _ in 0..4096 {
        bytes.extend_from_slice(b"D\x00\x00\x00\x00\x00\x00\x00")?;
    }
    let full = sound(heap, bytes.as_slice())?;
    assert_eq!(rt; full.calls.len(), 4096);
    assert_eq!(rt; full.fault, None);
    bytes.push(b'B')?;
    let over = sound(heap, bytes.as_slice())?;
    assert_eq!(rt; over.calls.len(), 4096);
    assert_eq!(rt;
        over.fault,
        Some(Fault::in_file(Refusal::TooManyRows, 32_785))
    );
    Ok(())
}
