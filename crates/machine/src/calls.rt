//! The six calls. A refused call gives its fault as an error, and changes nothing.
ghost use Rattle.std.specs.Prelude.{◌≡◌, None, Ok, OnErr};
ghost use Rattle.protocol.specs.declared.call.Op.TheVariants.{Begin, Load, Store};
ghost use Rattle.protocol.specs.declared.call.Op.TheVariants.{Commit, Drop, Fetch};
ghost use Rattle.rules.specs.Refusals.{fault_of};
ghost use Rattle.rules.specs.Steps.{accepted_step, step};
ghost use Rattle.machine.specs.Meaning.{state, policy_of, loan};
ghost use Rattle.machine.specs.CallParts.{step_of};

use crate::machine::Machine;
use book::Book;
use memory::Memory;
use protocol::{Answer, Call, Fault, Op};
use rules::{Access, Request};

impl<M: Memory, B: Book> Machine<M, B> {
    /// Executes a call that is not refused.
    fn accept(&mut self, call: Call) -> Answer
        requires { fault_of (state M.at B.kind B.model self.old) call ≡ None }
        ensures after { state M.at B.kind B.model self.new
            ≡ (accepted_step (policy_of B.kind self.old)
            (state M.at B.kind B.model self.old) call.warp call.op).machine }
        ensures answer { Ok result
            ≡ (accepted_step (policy_of B.kind self.old)
            (state M.at B.kind B.model self.old) call.warp call.op).answer }
        ensures loan { loan M.lent M.spare self.new ≡ loan M.lent M.spare self.old }
    {
        let Call { warp, op } = call;
        match op {
            Op::Begin => {
                self.warps.open(warp);
                Answer::Done
            }
            Op::Load { line } => self.access(Request {
                warp,
                line,
                access: Access::Read,
            }),
            Op::Store { line, value } => self.access(Request {
                warp,
                line,
                access: Access::Write { value },
            }),
            Op::Commit => {
                let stamp = self.warps.stamp(warp);
                self.write_back(warp);
                self.end(warp, stamp);
                Answer::Done
            }
            Op::Drop => {
                let stamp = self.warps.stamp(warp);
                self.end(warp, stamp);
                Answer::Done
            }
            Op::Fetch => self.fetch_outcome(warp),
        }
    }

    /// Executes a call, or reports why it is refused.
    pub fn call(&mut self, call: Call) -> Result<Answer, Fault>
        ensures after { state M.at B.kind B.model self.new
            ≡ (step (policy_of B.kind self.old)
            (state M.at B.kind B.model self.old) call).machine }
        ensures answer { result
            ≡ (step (policy_of B.kind self.old)
            (state M.at B.kind B.model self.old) call).answer }
        ensures unchanged { OnErr result (self.new ≡ self.old) }
        ensures loan { loan M.lent M.spare self.new ≡ loan M.lent M.spare self.old }
    {
        self.check(call)?;
        Ok(self.accept(call))
    }

    /// Opens a transaction.
    pub fn begin(&mut self, warp: u32) -> Result<Answer, Fault>
        ensures after { state M.at B.kind B.model self.new
            ≡ (step_of (policy_of B.kind self.old)
            (state M.at B.kind B.model self.old) warp Begin).machine }
        ensures answer { result
            ≡ (step_of (policy_of B.kind self.old)
            (state M.at B.kind B.model self.old) warp Begin).answer }
        ensures unchanged { OnErr result (self.new ≡ self.old) }
        ensures loan { loan M.lent M.spare self.new ≡ loan M.lent M.spare self.old }
    {
        self.call(Call {
            warp,
            op: Op::Begin,
        })
    }

    /// Loads the value of a line.
    pub fn load(&mut self, warp: u32, line: u32) -> Result<Answer, Fault>
        ensures after { state M.at B.kind B.model self.new
            ≡ (step_of (policy_of B.kind self.old)
            (state M.at B.kind B.model self.old) warp (Load line)).machine }
        ensures answer { result
            ≡ (step_of (policy_of B.kind self.old)
            (state M.at B.kind B.model self.old) warp (Load line)).answer }
        ensures unchanged { OnErr result (self.new ≡ self.old) }
        ensures loan { loan M.lent M.spare self.new ≡ loan M.lent M.spare self.old }
    {
        self.call(Call {
            warp,
            op: Op::Load { line },
        })
    }

    /// Stores a value to a line. Memory has it once the transaction commits.
    pub fn store(&mut self, warp: u32, line: u32, value: u32) -> Result<Answer, Fault>
        ensures after { state M.at B.kind B.model self.new
            ≡ (step_of (policy_of B.kind self.old)
            (state M.at B.kind B.model self.old) warp (Store line value)).machine }
        ensures answer { result
            ≡ (step_of (policy_of B.kind self.old)
            (state M.at B.kind B.model self.old) warp (Store line value)).answer }
        ensures unchanged { OnErr result (self.new ≡ self.old) }
        ensures loan { loan M.lent M.spare self.new ≡ loan M.lent M.spare self.old }
    {
        self.call(Call {
            warp,
            op: Op::Store { line, value },
        })
    }

    /// Ends the transaction and writes what it stored to memory.
    pub fn commit(&mut self, warp: u32) -> Result<Answer, Fault>
        ensures after { state M.at B.kind B.model self.new
            ≡ (step_of (policy_of B.kind self.old)
            (state M.at B.kind B.model self.old) warp Commit).machine }
        ensures answer { result
            ≡ (step_of (policy_of B.kind self.old)
            (state M.at B.kind B.model self.old) warp Commit).answer }
        ensures unchanged { OnErr result (self.new ≡ self.old) }
        ensures loan { loan M.lent M.spare self.new ≡ loan M.lent M.spare self.old }
    {
        self.call(Call {
            warp,
            op: Op::Commit,
        })
    }

    /// Ends the transaction and forgets what it stored.
    pub fn discard(&mut self, warp: u32) -> Result<Answer, Fault>
        ensures after { state M.at B.kind B.model self.new
            ≡ (step_of (policy_of B.kind self.old)
            (state M.at B.kind B.model self.old) warp Drop).machine }
        ensures answer { result
            ≡ (step_of (policy_of B.kind self.old)
            (state M.at B.kind B.model self.old) warp Drop).answer }
        ensures unchanged { OnErr result (self.new ≡ self.old) }
        ensures loan { loan M.lent M.spare self.new ≡ loan M.lent M.spare self.old }
    {
        self.call(Call { warp, op: Op::Drop })
    }

    /// Fetches the outcome of a load or a store that had to wait.
    pub fn fetch(&mut self, warp: u32) -> Result<Answer, Fault>
        ensures after { state M.at B.kind B.model self.new
            ≡ (step_of (policy_of B.kind self.old)
            (state M.at B.kind B.model self.old) warp Fetch).machine }
        ensures answer { result
            ≡ (step_of (policy_of B.kind self.old)
            (state M.at B.kind B.model self.old) warp Fetch).answer }
        ensures unchanged { OnErr result (self.new ≡ self.old) }
        ensures loan { loan M.lent M.spare self.new ≡ loan M.lent M.spare self.old }
    {
        self.call(Call {
            warp,
            op: Op::Fetch,
        })
    }
}
