//! How a run ends.

/// How a run ends.
#[derive(Clone, Copy, Debug, PartialEq, Eq)]
pub enum Status {
    /// The source was read to its end, and the whole output was written.
    Done,
    /// This line, counted from 1, isn't in the grammar or is too long.
    BadLine { line: u64 },
    /// The words aren't `replay`.
    Usage,
    ReadFault,
    WriteFault,
    NoMemory,
    /// So many bytes were read as are read at all, and there was no end.
    InputTooLong,
}

impl Status {
    ghost use Rattle.std.specs.Prelude.{◌≡◌};
    ghost use Rattle.zm_run.specs.Numbers.{number_of};

    /// The number with which the program ends.
    pub fn number(self) -> u8
        ensures { result ≡ number_of self }
    {
        match self {
            Status::Done => 0,
            Status::BadLine { .. } => 1,
            Status::Usage => 2,
            Status::ReadFault => 3,
            Status::WriteFault => 4,
            Status::NoMemory => 5,
            Status::InputTooLong => 6,
        }
    }
}
