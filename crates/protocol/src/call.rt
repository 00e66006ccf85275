//! The calls that warps make to the machine.
ghost use Rattle.std.specs.Prelude.{◌≡◌};
ghost use Rattle.protocol.specs.Calls.{op_letter, op_named, LettersNameBack, NamesKeepLetters};

/// The operation that a warp asks for.
#[derive(Clone, Copy, PartialEq, Eq, Debug)]
pub enum Op {
    /// Begins a transaction.
    Begin,
    /// Reads the value of a line.
    Load { line: u32 },
    /// Gives a line a new value, once the transaction commits.
    Store { line: u32, value: u32 },
    /// Ends the transaction and writes its stores to memory.
    Commit,
    /// Ends the transaction and discards its stores.
    Drop,
    /// Fetches the outcome of a load or a store that had to wait.
    Fetch,
}

/// One call: the warp that makes it, and the operation. The machine refuses a warp or a line that
/// it does not have.
#[derive(Clone, Copy, PartialEq, Eq, Debug)]
pub struct Call {
    pub warp: u32,
    pub op: Op,
}

impl Op {
    /// The letter that stands for the operation in calls files and listings.
    pub fn letter(self) -> char
        ensures { result ≡ op_letter self }
    {
        match self {
            Op::Begin => 'B',
            Op::Load { .. } => 'L',
            Op::Store { .. } => 'S',
            Op::Commit => 'C',
            Op::Drop => 'D',
            Op::Fetch => 'F',
        }
    }

    // Keep this form: docs/DECISIONS.md.
    /// The operation that a letter stands for. Only loads use the line, and only stores use the
    /// line and the value.
    pub fn named(letter: char, line: u32, value: u32) -> Option<Op>
        ensures answer { result ≡ op_named letter line value }
        ensures back { LettersNameBack }
        ensures kept { NamesKeepLetters }
    {
        match letter {
            'B' => Some(Op::Begin),
            'L' => Some(Op::Load { line }),
            'S' => Some(Op::Store { line, value }),
            'C' => Some(Op::Commit),
            'D' => Some(Op::Drop),
            'F' => Some(Op::Fetch),
            _ => None,
        }
    }
}
