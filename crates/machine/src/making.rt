//! How a machine is made.
ghost use Rattle.std.specs.Prelude.{◌≡◌, nat_lt};
ghost use Rattle.std.specs.List.{find};
ghost use Rattle.protocol.specs.Limits.{last_stamp};
ghost use Rattle.rules.specs.Making.{new_machine, making_fault};
ghost use Rattle.rules.specs.Queue.{product_policy};
ghost use Rattle.machine.specs.Meaning.{state, policy_of, loan};
ghost use Rattle.machine.specs.CallParts.{as_result};
ghost use Rattle.machine.specs.Making.{count_result, stamp_result};

use crate::machine::Machine;
use crate::warps::Warps;
use book::Book;
use memory::Memory;
use protocol::limits::{LAST_STAMP, WARPS};
use protocol::{Fault, Refusal};

/// The first stamp that lies past the end of the clock.
fn first_late(stamps: &[u32]) -> Option<u32>
    ensures { result ≡ find (λ stamp. nat_lt last_stamp stamp) stamps.now }
{
    stamps.iter().copied().find(|stamp| *stamp > LAST_STAMP)
}

/// Refuses no warps, and too many.
fn check_count(count: usize) -> Result<(), Fault>
    ensures { result ≡ count_result count }
{
    if count == 0 || count > WARPS as usize {
        return Err(Fault::in_call(Refusal::BadSize, count as u64));
    }
    Ok(())
}

/// Refuses a stamp past the end of the clock, and a book that is not new.
#[tactic(auto, using(crate::proofs::LateStamps::find_late_is_first_late))]
fn check_stamps(stamps: &[u32], latest: u32) -> Result<(), Fault>
    ensures { result ≡ stamp_result stamps.now latest }
{
    if let Some(stamp) = first_late(stamps) {
        return Err(Fault::in_call(Refusal::BadStamp, u64::from(stamp)));
    }
    if latest != 0 {
        return Err(Fault::in_call(Refusal::BadStamp, u64::from(latest)));
    }
    Ok(())
}

/// All checks of a machine's shape.
fn check_shape<B: Book>(book: &B, stamps: &[u32]) -> Result<(), Fault>
    ensures { result ≡ as_result (making_fault B.kind (B.model book.now) stamps.now) }
{
    check_count(stamps.len())?;
    check_stamps(stamps, book.latest())
}

impl<M: Memory, B: Book> Machine<M, B> {
    /// Makes a machine of idle warps at their first stamps. If the shape is refused, the machine
    /// has no warps, so it refuses every call.
    pub fn make(memory: M, book: B, stamps: &[u32]) -> (Machine<M, B>, Result<(), Fault>)
        ensures machine { state M.at B.kind B.model result.0
            ≡ new_machine B.kind (M.at memory) (B.model book) stamps.now }
        ensures policy { policy_of B.kind result.0 ≡ product_policy B.kind }
        ensures fault { result.1 ≡ as_result (making_fault B.kind (B.model book) stamps.now) }
        ensures loan { loan M.lent M.spare result.0 ≡ (M.lent memory, M.spare memory) }
    {
        let shape = check_shape(&book, stamps);
        let warps = if shape.is_ok() { stamps } else { &[] };
        let machine = Machine {
            memory,
            book,
            warps: Warps::new(warps),
        };
        (machine, shape)
    }
}
