//! Small listings, by example.
use crate::listing::list;
use crate::text::add_bad_row;
use protocol::{Fault, Layer, Refusal};
use std::alloc::Global;
use std::process::Abort;
use std::test::Fail;

// A file and the listing that it must have.
fn lists(rt: &impl Abort, heap: Global, bytes: &[u8], text: &[u8]) -> Result<(), Fail> {
    let listed = list(heap, bytes)?;
    assert!(rt; listed.as_bytes() == text);
    Ok(())
}

fn written(rt: &impl Abort, heap: Global, number: u64, text: &[u8]) -> Result<(), Fail> {
    let fault = Fault {
        refusal: Refusal::NoSuchWarp,
        layer: Layer::Machine,
        number,
    };
    let mut all = String::new(heap);
    add_bad_row(&mut all, fault)?;
    assert!(rt; all.as_bytes() == text);
    Ok(())
}

#[test]
fn damaged_headers(rt: HostRuntime) -> Result<(), Fail> {
    let heap = rt.alloc();
    lists(&rt, heap, b"GT", b"bad 11 0\n")?;
    lists(&rt, heap, b"GTM\x00", b"bad 12 3\n")?;
    lists(&rt, heap, b"GTM\x00\x01", b"bad 14 5\n")?;
    lists(&rt, heap, b"GTM\x00\x01E\x01\x00", b"bad 9 6\n")?;
    lists(
        &rt,
        heap,
        b"GTM\x00\x01E\x01\x00\x01\x00\x00",
        b"bad 13 11\n",
    )?;
    lists(
        &rt,
        heap,
        b"GTM\x00\x01C\x03\x00\x02\x00\x00\x00\x00;\x9a\xca\x01\x00\x00\x00\x09\
          \x00\x00\x00\x01\x00\x00\x00\x02B\x00\x00\x00\x00\x00\x00\x00",
        b"bad 10 13\n",
    )?;
    Ok(())
}

#[test]
fn small_files(rt: HostRuntime) -> Result<(), Fail> {
    let heap = rt.alloc();
    lists(
        &rt,
        heap,
        b"GTM\x00\x01E\x01\x00\x01\x00\x00\x00\x00\x00\x00\x00\x07",
        b"mem 0 7\n",
    )?;
    lists(
        &rt,
        heap,
        b"GTM\x00\x01C\x01\x00\x02\x00\x00\x00\x00\xff\xff\xff\xff\x00\x00\x00\x00",
        b"mem 0 4294967295\nmem 1 0\n",
    )?;
    lists(
        &rt,
        heap,
        b"GTM\x00\x01E\x01\x00\x01\x00\x00\x00\x00\x00\x00\x00\x07B",
        b"bad 13 17\n",
    )?;
    lists(
        &rt,
        heap,
        b"GTM\x00\x01E\x01\x00\x01\x00\x00\x00\x00\x00\x00\x00\x07X1234567",
        b"bad 14 17\n",
    )?;
    lists(
        &rt,
        heap,
        b"GTM\x00\x01E\x01\x00\x01\x00\x00\x00\x00\x00\x00\x00\x07B\x01\x00\x00\x00\x00\x00\x00",
        b"1 B 1 no 1\nmem 0 7\n",
    )
}

#[test]
fn numbers_in_digits(rt: HostRuntime) -> Result<(), Fail> {
    let heap = rt.alloc();
    written(&rt, heap, 0, b"bad 1 0\n")?;
    written(&rt, heap, 9, b"bad 1 9\n")?;
    written(&rt, heap, 10, b"bad 1 10\n")?;
    written(&rt, heap, 99, b"bad 1 99\n")?;
    written(&rt, heap, 100, b"bad 1 100\n")?;
    written(&rt, heap, 1_000_000_002, b"bad 1 1000000002\n")?;
    written(&rt, heap, u64::MAX, b"bad 1 18446744073709551615\n")
}
