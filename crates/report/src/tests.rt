//! Listings that match and listings that do not, by example.
use crate::compare::{Comparison, find_difference};
use std::process::Abort;

fn matches(rt: &impl Abort, text: &[u8], count: usize) {
    let said = find_difference(text, text);
    assert!(rt; matches!(said, Comparison::Match { rows } if rows == count));
}

fn differs(rt: &impl Abort, ours: &[u8], theirs: &[u8], place: usize) {
    let said = find_difference(ours, theirs);
    assert!(rt; matches!(said, Comparison::Differs { row, .. } if row == place));
}

#[test]
fn equal_texts(rt: HostRuntime) {
    matches(&rt, b"", 0);
    matches(&rt, b"\n", 1);
    matches(&rt, b"1 B 0 ok\nmem 0 9\n", 2);
    matches(&rt, b"1 B 0 ok\nmem 0 9", 2);
}

#[test]
fn texts_that_differ(rt: HostRuntime) {
    differs(&rt, b"", b"mem 0 9\n", 1);
    differs(&rt, b"mem 0 9\n", b"", 1);
    differs(&rt, b"mem 0 9\n", b"mem 0 9", 1);
    differs(&rt, b"mem 0 9\n", b"mem 0 9\r\n", 1);
    differs(&rt, b"1 B 0 ok\nmem 0 9\n", b"1 B 0 ok\nmem 0 8\n", 2);
    differs(&rt, b"1 B 0 ok\nmem 0 9\n", b"1 B 0 ok\n", 2);
    differs(&rt, b"1 B 0 ok\n", b"1 B 0 ok\nmem 0 9\n", 2);
    differs(&rt, b"1 B 0 ok\n", b"1 B 0 ok\n\n", 2);
}
