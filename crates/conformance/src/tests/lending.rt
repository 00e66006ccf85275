//! What a run leaves in the slices that a caller lends it: the answers in their places, and the
//! memory's new lines.
ghost use Rattle.std.specs.Prelude.{◌≡◌, ◌∷◌};
ghost use Rattle.harriersofa.specs.Lines.{word_lines, byte_lines, leftover_bytes};
ghost use Rattle.harriersofa.specs.Exact.{exact, exact_new};
ghost use Rattle.harriersofa.specs.Running.{run_of, calls_made};

use crate::tests::rows::{Row, call_of, check_reply};
use harriersofa::{Answer, ByteMemory, Call, ExactBook, Fault, Memory, Refusal, WordMemory, run};
use std::alloc::Global;
use std::process::Abort;
use std::test::Fail;

/// A memory that is itself borrowed. The checker follows a lent slice through a run only over a
/// memory that is passed by reference.
#[derive(Drop)]
struct LentMemory<'a, M> {
    memory: &'a mut M,
}

impl<'a, M: Memory> Memory for LentMemory<'a, M> {
    ghost at = { λ m. M.at m.memory.now };

    ghost lent = { λ m. m.memory.ghost_name ∷ M.lent m.memory.now };

    ghost spare = { λ m. M.spare m.memory.now };

    fn read(&self, line: u32) -> Result<u32, Fault> {
        self.memory.read(line)
    }

    fn write(&mut self, line: u32, value: u32) -> Result<(), Fault> {
        self.memory.write(line, value)
    }
}

/// Runs calls over a lent memory and the exact book. Once the machine is gone, the lender knows:
/// the lines are what the run left, the memory borrows the same slice as before, and whatever is in
/// no line is as it was.
fn runs_over<M: Memory>(
    memory: &mut M,
    stamps: &[u32],
    calls: &[Call],
    replies: &mut [Result<Answer, Fault>],
) -> Result<(), Fault>
    ensures lines { M.at memory.new
        ≡ (run_of exact (M.at memory.old) exact_new stamps.now
        (calls_made calls.now replies.old)).machine.lines }
    ensures lender { M.lent memory.new ≡ M.lent memory.old }
    ensures untouched { M.spare memory.new ≡ M.spare memory.old }
{
    run(
        LentMemory { memory },
        ExactBook::new(),
        stamps,
        calls,
        replies,
    )
    .shape
}

/// The same over words: the lender knows what they hold.
fn runs_over_words(
    words: &mut [u32],
    stamps: &[u32],
    calls: &[Call],
    replies: &mut [Result<Answer, Fault>],
) -> Result<(), Fault>
    ensures { word_lines words.new
        ≡ (run_of exact (word_lines words.old) exact_new stamps.now
        (calls_made calls.now replies.old)).machine.lines }
{
    let mut memory = WordMemory { words };
    runs_over(&mut memory, stamps, calls, replies)
}

/// The same over bytes. Bytes beyond the last whole line are as they were.
fn runs_over_bytes(
    bytes: &mut [u8],
    stamps: &[u32],
    calls: &[Call],
    replies: &mut [Result<Answer, Fault>],
) -> Result<(), Fault>
    ensures lines { byte_lines bytes.new
        ≡ (run_of exact (byte_lines bytes.old) exact_new stamps.now
        (calls_made calls.now replies.old)).machine.lines }
    ensures odd { leftover_bytes bytes.new ≡ leftover_bytes bytes.old }
{
    let mut memory = ByteMemory { bytes };
    runs_over(&mut memory, stamps, calls, replies)
}

const STORED: [Row; 4] = [
    ('B', 0, 0, 0, "ok"),
    ('S', 0, 1, 258, "ok"),
    ('C', 0, 0, 0, "ok"),
    ('L', 0, 1, 0, "no 2 machine 0"),
];

/// Fills each place before the run.
const UNTOUCHED: Result<Answer, Fault> = Ok(Answer::Val { value: 77 });

/// The calls of `STORED`.
fn stored_calls() -> Result<[Call; 4], Fail> {
    let [begin, store, commit, load] = &STORED;
    Ok([
        call_of(begin)?,
        call_of(store)?,
        call_of(commit)?,
        call_of(load)?,
    ])
}

/// Checks the replies to the first `made` rows, and that the places behind them are untouched.
fn check_replies(
    rt: &impl Abort,
    heap: Global,
    replies: &[Result<Answer, Fault>],
    made: usize,
) -> Result<(), Fail> {
    for (place, reply) in replies.iter().enumerate() {
        match STORED.get(place) {
            Some(row) if place < made => check_reply(rt, heap, row, *reply)?,
            Some(_) | None => assert_eq!(rt; *reply, UNTOUCHED),
        }
    }
    Ok(())
}

#[test]
fn a_place_for_each_call_and_more(rt: HostRuntime) -> Result<(), Fail> {
    let (mut words, mut replies) = ([1, 2, 3], [UNTOUCHED; 6]);
    let calls = stored_calls()?;
    let shape = runs_over_words(&mut words, &[0], &calls, &mut replies);
    assert_eq!(rt; shape, Ok(()));
    check_replies(&rt, rt.alloc(), &replies, 4)?;
    assert_eq!(rt; words, [1, 258, 3]);
    Ok(())
}

#[test]
fn no_more_calls_than_places(rt: HostRuntime) -> Result<(), Fail> {
    let (mut words, mut replies) = ([1, 2, 3], [UNTOUCHED; 2]);
    let calls = stored_calls()?;
    let shape = runs_over_words(&mut words, &[0], &calls, &mut replies);
    assert_eq!(rt; shape, Ok(()));
    check_replies(&rt, rt.alloc(), &replies, 2)?;
    assert_eq!(rt; words, [1, 2, 3]);
    Ok(())
}

#[test]
fn odd_bytes_stay(rt: HostRuntime) -> Result<(), Fail> {
    let (mut bytes, mut replies) = ([9; 11], [UNTOUCHED; 4]);
    let calls = stored_calls()?;
    let shape = runs_over_bytes(&mut bytes, &[0], &calls, &mut replies);
    assert_eq!(rt; shape, Ok(()));
    check_replies(&rt, rt.alloc(), &replies, 4)?;
    assert_eq!(rt; bytes, [9, 9, 9, 9, 2, 1, 0, 0, 9, 9, 9]);
    Ok(())
}

#[test]
fn a_refused_shape_answers_each_call(rt: HostRuntime) -> Result<(), Fail> {
    let (mut words, mut replies) = ([1, 2, 3], [UNTOUCHED; 4]);
    let calls = stored_calls()?;
    let shape = runs_over_words(&mut words, &[], &calls, &mut replies);
    assert_eq!(rt; shape, Err(Fault::in_call(Refusal::BadSize, 0)));
    for reply in &replies {
        assert_eq!(rt; *reply, Err(Fault::in_call(Refusal::NoSuchWarp, 0)));
    }
    Ok(())
}
