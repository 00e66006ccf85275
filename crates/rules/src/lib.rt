//! The rules of the machine, and the laws that every run of it keeps: serializability in timestamp
//! order, and no deadlock among waiting transactions.
#![tactic(auto)]

ghost use Rattle.book.specs.Meaning.{Kind};
ghost use Rattle.rules.specs.Examples.{ChainOfThree, LostUpdateUnexplained};
ghost use Rattle.rules.specs.Examples.{ReaderThenWriter, SameStamp, SettledLoadSeesCommit};
ghost use Rattle.rules.specs.Examples.{StampKeptUntilFetched, EarlyStampBreaksWaits};
ghost use Rattle.rules.specs.Examples.{TwoWriters, WriterThenReader};
ghost use Rattle.rules.specs.Laws.{LawOfAccounts, LawOfExplanation, LawOfFetches};
ghost use Rattle.rules.specs.Laws.{LawOfTables, LawOfWaits};
ghost use Rattle.rules.specs.Laws.{ProductCovers, ProductLawful, RefusalsChangeNothing};
ghost use Rattle.rules.specs.Worked.{WorkedRunsStand};

mod state;
mod verdict;

pub use state::{Access, Phase, Request};
pub use verdict::Verdict;

/// A kind of version book, by its meaning alone. The laws below hold over every kind that keeps
/// the promises of a book.
pub trait Versions {
    ghost kind: { Kind };
}

/// The law of accounts: serializability in timestamp order. The committed transactions of a run,
/// executed one after another in some order, give every load, every line's last value and every
/// line's writers as in the run, exactly if conflicting transactions are in timestamp order.
pub fn accounts_agree<B: Versions>()
    ensures { LawOfAccounts B.kind }
{}

/// The law of explanation: every run is serializable. In some order its committed transactions,
/// executed one after another, give what they gave in the run.
pub fn order_explains<B: Versions>()
    ensures { LawOfExplanation B.kind }
{}

/// The law of fetches: a fetch returns the outcome with which its warp's request was settled, and
/// the load or store counts in its transaction from then on.
pub fn fetches_return<B: Versions>()
    ensures { LawOfFetches B.kind }
{}

/// The law of waits: no deadlock. A warp waits only for the holder of a line, whose stamp is
/// smaller; following the holders, fewer steps than there are warps lead to a warp that does not
/// wait.
pub fn waits_end<B: Versions>()
    ensures { LawOfWaits B.kind }
{}

/// The law of tables: after every run the machine's stamps, logs, owners and counts are those of
/// the transactions that its answers show.
pub fn tables_agree<B: Versions>()
    ensures { LawOfTables B.kind }
{}

/// The product's order of retries leaves out no waiting request, so the laws of accounts and of
/// waits hold of every run of its machine.
pub fn product_is_lawful<B: Versions>()
    ensures covers { ProductCovers B.kind }
    ensures lawful { ProductLawful B.kind }
{}

/// A refused call changes nothing.
pub fn refusals_change_nothing<B: Versions>()
    ensures { RefusalsChangeNothing B.kind }
{}

/// The rules give the answers and the last line values that each worked run states.
pub fn worked_runs_stand()
    ensures { WorkedRunsStand }
{}

/// The laws reject wrong machines, by example. In each small run timestamp order gives the run's
/// account and the other order does not. A lost update is explained by no order, and a machine that
/// takes an aborted transaction's next stamp too early breaks the law of waits.
pub fn examples_stand()
    ensures writers { TwoWriters }
    ensures reader { WriterThenReader }
    ensures writer { ReaderThenWriter }
    ensures stamps { SameStamp }
    ensures settled { SettledLoadSeesCommit }
    ensures chain { ChainOfThree }
    ensures kept { StampKeptUntilFetched }
    ensures early { EarlyStampBreaksWaits }
    ensures lost { LostUpdateUnexplained }
{}
