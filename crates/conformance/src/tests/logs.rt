//! What a transaction holds: its log, its reserved lines, and their slots.
use crate::tests::queries::{check_line, check_warp};
use crate::tests::rows::{Row, make_calls};
use harriersofa::{CondensedBook, ExactBook, Machine, Phase, WordMemory};
use std::test::Fail;

// The last of 32 stores. Every further store gets refusal 7, unless an earlier rule refuses it.
const FULL: [Row; 12] = [
    ('S', 0, 0, 9, "ok"),
    ('S', 0, 0, 1, "no 7 machine 32"),
    ('S', 0, 1, 1, "no 7 machine 32"),
    ('S', 0, 9, 1, "no 6 memory 9"),
    ('L', 0, 0, 0, "val 9"),
    ('L', 0, 2, 0, "val 6"),
    ('L', 0, 1, 0, "wait"),
    ('S', 0, 0, 1, "no 4 machine 0"),
    ('C', 1, 0, 0, "ok"),
    ('F', 0, 0, 0, "val 71"),
    ('S', 0, 0, 1, "no 7 machine 32"),
    ('C', 0, 0, 0, "ok"),
];

#[test]
fn a_log_of_32_stores(rt: HostRuntime) -> Result<(), Fail> {
    let (heap, mut words) = (rt.alloc(), [0, 70, 2]);
    let memory = WordMemory { words: &mut words };
    let (mut machine, _) = Machine::make(memory, ExactBook::new(), &[5, 0]);
    let opened = [
        ('B', 0, 0, 0, "ok"),
        ('B', 1, 0, 0, "ok"),
        ('S', 1, 1, 71, "ok"),
    ];
    make_calls(&rt, heap, &mut machine, &opened)?;
    make_calls(&rt, heap, &mut machine, &[('S', 0, 0, 5, "ok"); 16])?;
    make_calls(&rt, heap, &mut machine, &[('S', 0, 2, 6, "ok"); 15])?;
    check_warp(&rt, &machine, 0, 5, 31);
    check_line(&rt, &machine, 0, 16, Some(0));
    check_line(&rt, &machine, 2, 15, Some(0));
    make_calls(&rt, heap, &mut machine, &FULL)?;
    check_warp(&rt, &machine, 0, 5, 0);
    check_line(&rt, &machine, 0, 0, None);
    check_line(&rt, &machine, 2, 0, None);
    assert!(rt; words == [9, 71, 6]);
    Ok(())
}

const DROPPED: [Row; 3] = [
    ('B', 0, 0, 0, "ok"),
    ('S', 0, 0, 9, "ok"),
    ('D', 0, 0, 0, "ok"),
];

// The drop leaves the line's write stamp too.
const OWN_DROP: [Row; 2] = [('B', 0, 0, 0, "ok"), ('L', 0, 0, 0, "gone 1 22")];

#[test]
fn a_drop_leaves_memory_and_stamp(rt: HostRuntime) -> Result<(), Fail> {
    let mut words = [7];
    let memory = WordMemory { words: &mut words };
    let (mut machine, _) = Machine::make(memory, ExactBook::new(), &[20]);
    make_calls(&rt, rt.alloc(), &mut machine, &DROPPED)?;
    assert!(rt; matches!(machine.phase(0), Phase::Idle));
    assert!(rt; machine.value(0) == Ok(7));
    check_warp(&rt, &machine, 0, 20, 0);
    check_line(&rt, &machine, 0, 0, None);
    make_calls(&rt, rt.alloc(), &mut machine, &OWN_DROP)
}

const SIXTEEN_LINES: [Row; 19] = [
    ('B', 0, 0, 0, "ok"),
    ('S', 0, 0, 1, "ok"),
    ('S', 0, 1, 1, "ok"),
    ('S', 0, 2, 1, "ok"),
    ('S', 0, 3, 1, "ok"),
    ('S', 0, 4, 1, "ok"),
    ('S', 0, 5, 1, "ok"),
    ('S', 0, 6, 1, "ok"),
    ('S', 0, 7, 1, "ok"),
    ('S', 0, 8, 1, "ok"),
    ('S', 0, 9, 1, "ok"),
    ('S', 0, 10, 1, "ok"),
    ('S', 0, 11, 1, "ok"),
    ('S', 0, 12, 1, "ok"),
    ('S', 0, 13, 1, "ok"),
    ('S', 0, 14, 1, "ok"),
    ('S', 0, 15, 1, "ok"),
    ('B', 1, 0, 0, "ok"),
    ('L', 1, 16, 0, "val 0"),
];

// Once the sixteen lines are released, the next store takes the slot of line 0. The filter keeps
// that line's write stamp.
const NO_SLOT: [Row; 5] = [
    ('S', 0, 16, 1, "gone 4 7"),
    ('B', 0, 0, 0, "ok"),
    ('S', 0, 16, 1, "ok"),
    ('L', 1, 16, 0, "gone 1 9"),
    ('L', 0, 0, 0, "gone 1 9"),
];

#[test]
fn sixteen_slots(rt: HostRuntime) -> Result<(), Fail> {
    let mut words = [0; 17];
    let memory = WordMemory { words: &mut words };
    let (mut machine, _) = Machine::make(memory, CondensedBook::new(), &[7, 3]);
    make_calls(&rt, rt.alloc(), &mut machine, &SIXTEEN_LINES)?;
    assert!(rt; !machine.line_state(16).has_slot);
    make_calls(&rt, rt.alloc(), &mut machine, &NO_SLOT)?;
    assert!(rt; words == [0; 17]);
    Ok(())
}
