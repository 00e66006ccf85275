//! The worked runs of docs/MACHINE.md, by their numbers there.
use crate::tests::rows::{Row, check_run, check_run_at_once};
use std::test::Fail;

// Run 1
const LATER_WRITE: [Row; 8] = [
    ('B', 0, 0, 0, "ok"),
    ('B', 1, 0, 0, "ok"),
    ('S', 0, 0, 9, "ok"),
    ('L', 1, 0, 0, "gone 1 2"),
    ('C', 0, 0, 0, "ok"),
    ('B', 1, 0, 0, "ok"),
    ('L', 1, 0, 0, "val 9"),
    ('L', 0, 0, 0, "no 2 machine 0"),
];

// Run 2; the rows from the eighth on are run 3
const TRANSFER: [Row; 13] = [
    ('B', 0, 0, 0, "ok"),
    ('B', 1, 0, 0, "ok"),
    ('L', 0, 0, 0, "val 100"),
    ('S', 0, 0, 90, "ok"),
    ('L', 1, 1, 0, "val 50"),
    ('S', 1, 1, 40, "ok"),
    ('L', 1, 0, 0, "gone 1 22"),
    ('L', 0, 1, 0, "val 50"),
    ('S', 0, 1, 60, "ok"),
    ('B', 1, 0, 0, "ok"),
    ('L', 1, 1, 0, "wait"),
    ('C', 0, 0, 0, "ok"),
    ('F', 1, 0, 0, "val 60"),
];

// Run 4
const OWN_COMMIT: [Row; 5] = [
    ('B', 0, 0, 0, "ok"),
    ('S', 0, 0, 8, "ok"),
    ('C', 0, 0, 0, "ok"),
    ('B', 0, 0, 0, "ok"),
    ('L', 0, 0, 0, "gone 1 7"),
];

// Run 5
const ONE_STAMP: [Row; 6] = [
    ('B', 0, 0, 0, "ok"),
    ('B', 1, 0, 0, "ok"),
    ('L', 0, 0, 0, "val 1"),
    ('L', 1, 1, 0, "val 2"),
    ('S', 0, 1, 3, "gone 2 1"),
    ('S', 1, 0, 4, "ok"),
];

// Run 6
const FIFTH_REQUEST: [Row; 12] = [
    ('B', 0, 0, 0, "ok"),
    ('B', 1, 0, 0, "ok"),
    ('B', 2, 0, 0, "ok"),
    ('B', 3, 0, 0, "ok"),
    ('B', 4, 0, 0, "ok"),
    ('B', 5, 0, 0, "ok"),
    ('S', 0, 0, 8, "ok"),
    ('L', 1, 0, 0, "wait"),
    ('L', 2, 0, 0, "wait"),
    ('L', 3, 0, 0, "wait"),
    ('L', 4, 0, 0, "wait"),
    ('L', 5, 0, 0, "gone 3 1"),
];

// Run 7
const FIRST_TO_ARRIVE: [Row; 9] = [
    ('B', 0, 0, 0, "ok"),
    ('B', 1, 0, 0, "ok"),
    ('B', 2, 0, 0, "ok"),
    ('S', 0, 0, 8, "ok"),
    ('S', 2, 0, 9, "wait"),
    ('L', 1, 0, 0, "wait"),
    ('C', 0, 0, 0, "ok"),
    ('F', 2, 0, 0, "ok"),
    ('F', 1, 0, 0, "gone 1 5"),
];

// Run 8
const END_OF_CLOCK: [Row; 5] = [
    ('B', 0, 0, 0, "ok"),
    ('B', 1, 0, 0, "ok"),
    ('S', 0, 0, 8, "ok"),
    ('L', 1, 0, 0, "gone 1 1000000002"),
    ('B', 1, 0, 0, "no 8 machine 1000000002"),
];

const LAST: u32 = 1_000_000_000;

#[test]
fn the_worked_runs(rt: HostRuntime) -> Result<(), Fail> {
    let heap = rt.alloc();
    check_run(&rt, heap, &mut [7], &[0, 0], &LATER_WRITE, &[9])?;
    check_run(
        &rt,
        heap,
        &mut [100, 50],
        &[20, 10],
        &TRANSFER[..7],
        &[100, 50],
    )?;
    check_run(&rt, heap, &mut [100, 50], &[20, 10], &TRANSFER, &[90, 60])?;
    check_run(&rt, heap, &mut [7], &[5], &OWN_COMMIT, &[8])?;
    check_run(&rt, heap, &mut [1, 2], &[0, 0], &ONE_STAMP, &[1, 2])?;
    check_run(
        &rt,
        heap,
        &mut [7],
        &[0, 1, 1, 1, 1, 1],
        &FIFTH_REQUEST,
        &[7],
    )?;
    check_run(&rt, heap, &mut [7], &[0, 3, 3], &FIRST_TO_ARRIVE, &[8])?;
    check_run(&rt, heap, &mut [7], &[LAST, LAST], &END_OF_CLOCK, &[7])
}

#[test]
fn a_worked_run_at_once(rt: HostRuntime) -> Result<(), Fail> {
    let mut words = [7];
    check_run_at_once(&rt, rt.alloc(), &mut words, &[0, 0], &LATER_WRITE)?;
    assert!(rt; words == [9]);
    Ok(())
}
