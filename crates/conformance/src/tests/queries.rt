//! Every query of a machine, before a commit and after it; and checks that other tests share.
use crate::tests::rows::{Row, make_calls};
use harriersofa::{
    Access, Book, ExactBook, Fault, Layer, LineState, Machine, Memory, Outcome, Phase, Refusal,
    Request, WordMemory,
};
use std::process::Abort;
use std::test::Fail;

/// A request's warp, its line, and the value that it would store.
pub type Waiting = (u32, u32, Option<u32>);

fn waiting(request: Option<Request>) -> Option<Waiting> {
    let Request { warp, line, access } = request?;
    match access {
        Access::Read => Some((warp, line, None)),
        Access::Write { value } => Some((warp, line, Some(value))),
    }
}

/// Checks a warp's stamp and the number of stores in its log.
pub fn check_warp<M: Memory, B: Book>(
    rt: &impl Abort,
    machine: &Machine<M, B>,
    warp: u32,
    stamp: u64,
    stores: usize,
) {
    assert!(rt; machine.stamp(warp) == stamp);
    assert!(rt; machine.log(warp).len() == stores);
}

/// Checks the number of stores that hold a line, and its owner.
pub fn check_line<M: Memory, B: Book>(
    rt: &impl Abort,
    machine: &Machine<M, B>,
    line: u32,
    stores: u32,
    owner: Option<u32>,
) {
    assert!(rt; machine.stores(line) == stores);
    assert!(rt; machine.line_state(line).owner == owner);
}

/// Checks the request at a place of the queue.
pub fn check_place<M: Memory, B: Book>(
    rt: &impl Abort,
    machine: &Machine<M, B>,
    n: usize,
    request: Option<Waiting>,
) {
    assert!(rt; waiting(machine.request_at(n)) == request);
}

/// Checks a warp's waiting request.
pub fn check_request<M: Memory, B: Book>(
    rt: &impl Abort,
    machine: &Machine<M, B>,
    warp: u32,
    request: Option<Waiting>,
) {
    assert!(rt; waiting(machine.request_of(warp)) == request);
}

// Warp 1 stays idle.
const ROWS: [Row; 6] = [
    ('B', 0, 0, 0, "ok"),
    ('B', 2, 0, 0, "ok"),
    ('L', 0, 0, 0, "val 100"),
    ('S', 0, 1, 60, "ok"),
    ('S', 0, 1, 61, "ok"),
    ('L', 2, 1, 0, "wait"),
];

const LOAD: Waiting = (2, 1, None);

fn line_state(write_stamp: u32, read_mark: (u32, u32), owner: Option<u32>) -> LineState {
    LineState {
        write_stamp,
        read_mark,
        owner,
        has_slot: true,
    }
}

fn check_warps<M: Memory, B: Book>(rt: &impl Abort, machine: &Machine<M, B>) {
    assert!(rt; machine.warp_count() == 3);
    assert!(rt; matches!(machine.phase(0), Phase::Open));
    assert!(rt; matches!(machine.phase(1), Phase::Idle));
    assert!(rt; matches!(machine.phase(2), Phase::Waiting));
    check_warp(rt, machine, 0, 20, 2);
    check_warp(rt, machine, 1, 10, 0);
    check_warp(rt, machine, 2, 30, 0);
    assert!(rt; machine.log(0).latest(1) == Some(61));
    check_request(rt, machine, 0, None);
    check_request(rt, machine, 2, Some(LOAD));
    check_place(rt, machine, 0, Some(LOAD));
    check_place(rt, machine, 1, None);
    assert!(rt; machine.outcome(2).is_none());
}

fn check_lines<M: Memory, B: Book>(rt: &impl Abort, machine: &Machine<M, B>) {
    let lacking = Fault {
        refusal: Refusal::NoSuchLine,
        layer: Layer::Memory,
        number: 2,
    };
    assert!(rt; machine.value(1) == Ok(50));
    assert!(rt; machine.value(2) == Err(lacking));
    check_line(rt, machine, 0, 0, None);
    check_line(rt, machine, 1, 2, Some(0));
    assert!(rt; machine.line_state(0) == line_state(0, (20, 0), None));
    assert!(rt; machine.line_state(1) == line_state(21, (0, 0), Some(0)));
    assert!(rt; machine.latest() == 21);
}

fn check_after_commit<M: Memory, B: Book>(rt: &impl Abort, machine: &Machine<M, B>) {
    assert!(rt; matches!(machine.phase(2), Phase::Settled { .. }));
    assert!(rt; machine.outcome(2) == Some(Outcome::Value { value: 61 }));
    check_warp(rt, machine, 0, 20, 0);
    check_line(rt, machine, 1, 0, None);
    check_place(rt, machine, 0, None);
    assert!(rt; machine.line_state(1) == line_state(21, (30, 2), None));
    assert!(rt; machine.latest() == 30);
    assert!(rt; machine.warps().stamp(2) == 30);
    assert!(rt; machine.memory().read(1) == Ok(61));
    assert!(rt; machine.book().write_stamp(1) == 21);
}

#[test]
fn questions(rt: HostRuntime) -> Result<(), Fail> {
    let mut words = [100, 50];
    let memory = WordMemory { words: &mut words };
    let (mut machine, _) = Machine::make(memory, ExactBook::new(), &[20, 10, 30]);
    make_calls(&rt, rt.alloc(), &mut machine, &ROWS)?;
    check_warps(&rt, &machine);
    check_lines(&rt, &machine);
    make_calls(&rt, rt.alloc(), &mut machine, &[('C', 0, 0, 0, "ok")])?;
    check_after_commit(&rt, &machine);
    Ok(())
}
