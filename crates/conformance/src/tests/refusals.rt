//! Refusals of calls: each with its layer and its offending number, and which one comes first.
use crate::tests::rows::{Row, check_run};
use std::test::Fail;

// There is no warp 2 and no line 9, and warp 1's stamp is the end of the clock.
const IN_ORDER: [Row; 36] = [
    ('B', 2, 0, 0, "no 1 machine 2"),
    ('L', 2, 9, 0, "no 1 machine 2"),
    ('F', 4_294_967_295, 0, 0, "no 1 machine 4294967295"),
    ('L', 1, 0, 0, "no 2 machine 1"),
    ('L', 1, 9, 0, "no 2 machine 1"),
    ('S', 1, 9, 1, "no 2 machine 1"),
    ('C', 1, 0, 0, "no 2 machine 1"),
    ('D', 1, 0, 0, "no 2 machine 1"),
    ('F', 1, 0, 0, "no 2 machine 1"),
    ('B', 1, 0, 0, "ok"),
    ('B', 1, 0, 0, "no 3 machine 1"),
    ('F', 1, 0, 0, "no 5 machine 1"),
    ('L', 1, 9, 0, "no 6 memory 9"),
    ('S', 1, 9, 1, "no 6 memory 9"),
    ('B', 0, 0, 0, "ok"),
    ('S', 0, 0, 5, "ok"),
    ('L', 1, 0, 0, "wait"),
    ('B', 1, 0, 0, "no 3 machine 1"),
    ('L', 1, 9, 0, "no 4 machine 1"),
    ('S', 1, 9, 1, "no 4 machine 1"),
    ('C', 1, 0, 0, "no 4 machine 1"),
    ('D', 1, 0, 0, "no 4 machine 1"),
    ('F', 1, 0, 0, "wait"),
    ('C', 0, 0, 0, "ok"),
    ('B', 1, 0, 0, "no 3 machine 1"),
    ('L', 1, 9, 0, "no 4 machine 1"),
    ('S', 1, 0, 1, "no 4 machine 1"),
    ('C', 1, 0, 0, "no 4 machine 1"),
    ('D', 1, 0, 0, "no 4 machine 1"),
    ('F', 1, 0, 0, "val 5"),
    ('F', 1, 0, 0, "no 5 machine 1"),
    ('S', 1, 0, 6, "ok"),
    ('D', 1, 0, 0, "ok"),
    ('B', 0, 0, 0, "ok"),
    ('S', 0, 0, 7, "gone 1 1000000002"),
    ('B', 0, 0, 0, "no 8 machine 1000000002"),
];

#[test]
fn refusals_in_order(rt: HostRuntime) -> Result<(), Fail> {
    check_run(
        &rt,
        rt.alloc(),
        &mut [4],
        &[0, 1_000_000_000],
        &IN_ORDER,
        &[5],
    )
}
