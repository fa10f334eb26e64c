ghost use Rattle.std.specs.Prelude.{◌≡◌};
ghost use Rattle.psa_outcome.specs.RunOutcome.{exit_of};

/// How a run ended.
#[derive(Clone, Copy, Debug, PartialEq, Eq)]
pub enum Status {
    /// All was written.
    Done,
    /// The model has a fault; nothing was written.
    BadModel,
    /// The words are refused; nothing was opened or written.
    BadWords,
    /// A file could not be opened or read; nothing was written.
    ReadFault,
    /// The report could not be written; a prefix of it was.
    WriteFault,
    /// As many diagram nodes stand as the limit allows: at the target with this number, from 1. The
    /// head and the sections before it were written.
    NodeLimit(u32),
    /// Memory was wanting; a prefix of the report was written.
    OutOfMemory,
}

impl Status {
    /// The exit status of the program: 0 where all was written.
    pub fn exit(self) -> u8
        ensures { result ≡ exit_of self }
    {
        match self {
            Status::Done => 0,
            Status::BadModel => 1,
            Status::BadWords => 2,
            Status::ReadFault | Status::WriteFault => 3,
            Status::NodeLimit(_) => 4,
            Status::OutOfMemory => 5,
        }
    }
}
