//! The queue: its limits, the order of the retries, and a settled request until it is fetched.
use crate::tests::queries::{check_line, check_place, check_request, check_warp};
use crate::tests::rows::{Row, check_run, make_calls};
use harriersofa::{Cause, ExactBook, Machine, Outcome, Phase, WordMemory};
use std::test::Fail;

// Warp 0 holds five lines. Requests wait for four of them, so none may wait for the fifth.
const FIFTH_LINE: [Row; 24] = [
    ('B', 0, 0, 0, "ok"),
    ('B', 1, 0, 0, "ok"),
    ('B', 2, 0, 0, "ok"),
    ('B', 3, 0, 0, "ok"),
    ('B', 4, 0, 0, "ok"),
    ('B', 5, 0, 0, "ok"),
    ('B', 6, 0, 0, "ok"),
    ('S', 0, 0, 10, "ok"),
    ('S', 0, 1, 11, "ok"),
    ('S', 0, 2, 12, "ok"),
    ('S', 0, 3, 13, "ok"),
    ('S', 0, 4, 14, "ok"),
    ('L', 1, 0, 0, "wait"),
    ('L', 2, 1, 0, "wait"),
    ('L', 3, 2, 0, "wait"),
    ('L', 4, 3, 0, "wait"),
    ('S', 5, 4, 99, "gone 3 1"),
    ('L', 6, 3, 0, "wait"),
    ('C', 0, 0, 0, "ok"),
    ('F', 1, 0, 0, "val 10"),
    ('F', 4, 0, 0, "val 13"),
    ('F', 6, 0, 0, "val 13"),
    ('B', 5, 0, 0, "ok"),
    ('L', 5, 4, 0, "val 14"),
];

#[test]
fn a_fifth_line_is_too_many(rt: HostRuntime) -> Result<(), Fail> {
    let stamps = [0, 1, 1, 1, 1, 1, 1];
    check_run(
        &rt,
        rt.alloc(),
        &mut [0; 5],
        &stamps,
        &FIFTH_LINE,
        &[10, 11, 12, 13, 14],
    )
}

// Warps 1 to 4 wait at stamps 9, 5, 5 and 7. The load of warp 2 is tried first; then the store of
// warp 3 takes the line.
const IN_TURN: [Row; 14] = [
    ('B', 0, 0, 0, "ok"),
    ('B', 1, 0, 0, "ok"),
    ('B', 2, 0, 0, "ok"),
    ('B', 3, 0, 0, "ok"),
    ('B', 4, 0, 0, "ok"),
    ('S', 0, 0, 10, "ok"),
    ('S', 1, 0, 11, "wait"),
    ('L', 2, 0, 0, "wait"),
    ('S', 3, 0, 13, "wait"),
    ('L', 4, 0, 0, "wait"),
    ('C', 0, 0, 0, "ok"),
    ('F', 2, 0, 0, "val 10"),
    ('F', 3, 0, 0, "ok"),
    ('F', 4, 0, 0, "wait"),
];

// The load of warp 4 at stamp 7 is tried before the store of warp 1 at stamp 9, which arrived
// earlier.
const NEXT_TURN: [Row; 5] = [
    ('C', 3, 0, 0, "ok"),
    ('F', 4, 0, 0, "val 13"),
    ('F', 1, 0, 0, "ok"),
    ('L', 1, 0, 0, "val 11"),
    ('C', 1, 0, 0, "ok"),
];

#[test]
fn requests_have_their_turns(rt: HostRuntime) -> Result<(), Fail> {
    let mut words = [0];
    let memory = WordMemory { words: &mut words };
    let (mut machine, _) = Machine::make(memory, ExactBook::new(), &[0, 9, 5, 5, 7]);
    make_calls(&rt, rt.alloc(), &mut machine, &IN_TURN[..10])?;
    check_place(&rt, &machine, 1, Some((2, 0, None)));
    make_calls(&rt, rt.alloc(), &mut machine, &IN_TURN[10..])?;
    check_place(&rt, &machine, 0, Some((1, 0, Some(11))));
    check_place(&rt, &machine, 1, Some((4, 0, None)));
    check_place(&rt, &machine, 2, None);
    make_calls(&rt, rt.alloc(), &mut machine, &NEXT_TURN)?;
    check_place(&rt, &machine, 0, None);
    assert!(rt; machine.value(0) == Ok(11));
    Ok(())
}

// The store of warp 2 takes line 0 before the load of warp 1 is tried. Warp 3 waits for the line
// that warp 1 holds.
const OVERTAKEN: [Row; 10] = [
    ('B', 0, 0, 0, "ok"),
    ('B', 1, 0, 0, "ok"),
    ('B', 2, 0, 0, "ok"),
    ('B', 3, 0, 0, "ok"),
    ('S', 0, 0, 1, "ok"),
    ('S', 1, 1, 11, "ok"),
    ('S', 2, 0, 9, "wait"),
    ('L', 1, 0, 0, "wait"),
    ('L', 3, 1, 0, "wait"),
    ('C', 0, 0, 0, "ok"),
];

const NOT_FETCHED: [Row; 4] = [
    ('B', 1, 0, 0, "no 3 machine 1"),
    ('S', 1, 1, 2, "no 4 machine 1"),
    ('F', 3, 0, 0, "wait"),
    ('F', 1, 0, 0, "gone 1 5"),
];

#[test]
fn what_is_gone_stays_until_it_is_fetched(rt: HostRuntime) -> Result<(), Fail> {
    let mut words = [7, 8];
    let memory = WordMemory { words: &mut words };
    let (mut machine, _) = Machine::make(memory, ExactBook::new(), &[0, 3, 3, 4]);
    make_calls(&rt, rt.alloc(), &mut machine, &OVERTAKEN)?;
    let (cause, next) = (Cause::WrittenLater, 5);
    assert!(rt; machine.outcome(1) == Some(Outcome::Gone { cause, next }));
    check_request(&rt, &machine, 1, None);
    check_warp(&rt, &machine, 1, 3, 1);
    check_line(&rt, &machine, 1, 1, Some(1));
    make_calls(&rt, rt.alloc(), &mut machine, &NOT_FETCHED)?;
    assert!(rt; matches!(machine.phase(1), Phase::Idle));
    check_warp(&rt, &machine, 1, 5, 0);
    check_line(&rt, &machine, 1, 0, None);
    make_calls(&rt, rt.alloc(), &mut machine, &[('F', 3, 0, 0, "val 8")])
}
