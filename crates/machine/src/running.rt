//! Runs: a machine is made, and a list of calls is executed.
ghost use Rattle.std.specs.Prelude.{◌≡◌, ◌≤◌, length, None, IfOk};
ghost use Rattle.rules.specs.Making.{making_fault};
ghost use Rattle.rules.specs.Runs.{run as run_from};
ghost use Rattle.machine.specs.Meaning.{state, policy_of, loan};
ghost use Rattle.machine.specs.CallParts.{as_result};
ghost use Rattle.machine.specs.Running.{run_of, calls_made, answers_in, answers_after};
ghost use Rattle.machine.specs.Running.{AccountsOf, ExplainedOf, WaitsOf, TablesOf, FetchesOf};

use crate::machine::Machine;
use book::Book;
use memory::Memory;
use protocol::{Answer, Call, Fault};
use std::alloc::{AllocError, Global};

/// The machine at the end of a run, and the fault of its shape, if it has one.
#[derive(Drop)]
pub struct Ran<M, B> {
    pub machine: Machine<M, B>,
    pub shape: Result<(), Fault>,
}

impl<M: Memory, B: Book> Machine<M, B> {
    /// Executes a list of calls, and puts each answer in its place.
    fn make_calls(&mut self, calls: &[Call], answers: &mut [Result<Answer, Fault>])
        requires { length calls.now ≤ length answers.old }
        ensures after { state M.at B.kind B.model self.new
            ≡ (run_from (policy_of B.kind self.old)
            (state M.at B.kind B.model self.old) calls.now).machine }
        ensures answers { answers.new
            ≡ answers_after (run_from (policy_of B.kind self.old)
            (state M.at B.kind B.model self.old) calls.now).events answers.old }
        ensures loan { loan M.lent M.spare self.new ≡ loan M.lent M.spare self.old }
    {
        for (place, call) in calls.iter().enumerate() {
            answers[place] = self.call(*call);
        }
    }
}

/// Makes a machine and executes as many calls as there are places for answers. It allocates
/// nothing. Machine and answers are as the rules say; the places after the answers are unchanged.
/// With every memory and every book:
///
/// - the account of the run is that of its committed transactions executed one at a time, exactly
///   in the orders that keep logical time between conflicting transactions, and there is such an
///   order;
/// - there is no deadlock: holders with ever smaller stamps lead from every waiting warp to one
///   that does not wait;
/// - the rows, the queue and the book agree with the account;
/// - a fetch returns what joined the account when the request was settled;
/// - what the memory borrows stays borrowed, and what is in none of its lines stays as it was.
pub fn run<M: Memory, B: Book>(
    memory: M,
    book: B,
    stamps: &[u32],
    calls: &[Call],
    answers: &mut [Result<Answer, Fault>],
) -> Ran<M, B>
    ensures machine { state M.at B.kind B.model result.machine
        ≡ (run_of B.kind (M.at memory) (B.model book) stamps.now
        (calls_made calls.now answers.old)).machine }
    ensures answers { answers.new
        ≡ answers_after (run_of B.kind (M.at memory) (B.model book) stamps.now
        (calls_made calls.now answers.old)).events answers.old }
    ensures shape { result.shape ≡ as_result (making_fault B.kind (B.model book) stamps.now) }
    ensures accounts { AccountsOf (M.at memory)
        (run_of B.kind (M.at memory) (B.model book) stamps.now
        (calls_made calls.now answers.old)) }
    ensures explained { ExplainedOf (M.at memory)
        (run_of B.kind (M.at memory) (B.model book) stamps.now
        (calls_made calls.now answers.old)) }
    ensures waits { WaitsOf
        (run_of B.kind (M.at memory) (B.model book) stamps.now
        (calls_made calls.now answers.old)) }
    ensures tables { making_fault B.kind (B.model book) stamps.now ≡ None → TablesOf
        (run_of B.kind (M.at memory) (B.model book) stamps.now
        (calls_made calls.now answers.old)) }
    ensures fetches { FetchesOf
        (run_of B.kind (M.at memory) (B.model book) stamps.now
        (calls_made calls.now answers.old)) }
    ensures loan { loan M.lent M.spare result.machine ≡ (M.lent memory, M.spare memory) }
{
    let (mut machine, shape) = Machine::make(memory, book, stamps);
    let count = calls.len().min(answers.len());
    machine.make_calls(&calls[..count], answers);
    Ran { machine, shape }
}

/// Like `run`, but makes all calls and returns the answers in a vector. It fails only if memory
/// runs out.
pub fn run_to_vec<M: Memory + Drop, B: Book + Drop>(
    heap: Global,
    memory: M,
    book: B,
    stamps: &[u32],
    calls: &[Call],
) -> Result<(Ran<M, B>, Vec<Result<Answer, Fault>>), AllocError>
    ensures machine { IfOk result (λ ran. state M.at B.kind B.model ran.0.machine
        ≡ (run_of B.kind (M.at memory) (B.model book) stamps.now calls.now).machine) }
    ensures answers { IfOk result (λ ran. ran.1.items
        ≡ answers_in (run_of B.kind (M.at memory) (B.model book) stamps.now calls.now).events) }
    ensures shape { IfOk result (λ ran. ran.0.shape
        ≡ as_result (making_fault B.kind (B.model book) stamps.now)) }
    ensures accounts { AccountsOf (M.at memory)
        (run_of B.kind (M.at memory) (B.model book) stamps.now calls.now) }
    ensures explained { ExplainedOf (M.at memory)
        (run_of B.kind (M.at memory) (B.model book) stamps.now calls.now) }
    ensures waits { WaitsOf
        (run_of B.kind (M.at memory) (B.model book) stamps.now calls.now) }
    ensures tables { making_fault B.kind (B.model book) stamps.now ≡ None → TablesOf
        (run_of B.kind (M.at memory) (B.model book) stamps.now calls.now) }
    ensures fetches { FetchesOf
        (run_of B.kind (M.at memory) (B.model book) stamps.now calls.now) }
    ensures loan { IfOk result (λ ran. loan M.lent M.spare ran.0.machine
        ≡ (M.lent memory, M.spare memory)) }
{
    let mut answers = vec![in heap; Ok(Answer::Wait); calls.len()]?;
    let ran = run(memory, book, stamps, calls, answers.as_mut_slice());
    Ok((ran, answers))
}
