ghost use Rattle.std.specs.Prelude.{◌≡◌};
ghost use Rattle.psa_whatif.specs.WhatIfOutcome.{exit_of};

/// How a run of edits ended.
#[derive(Clone, Copy, Debug, PartialEq, Eq)]
pub enum WhatIfStatus {
    /// All reports were written.
    Done,
    /// The model has a fault; nothing was written.
    BadModel,
    /// The line of edits with this number, from 1, is the first bad one. The reports before it were
    /// written; nothing was, where the file of edits is too long.
    BadEdit(u32),
    /// The words are refused; nothing was opened or written.
    BadWords,
    /// A file could not be opened or read; nothing was written.
    ReadFault,
    /// A report could not be written; a prefix of the reports was.
    WriteFault,
    /// Memory was wanting; nothing was written, or some first reports.
    OutOfMemory,
}

impl WhatIfStatus {
    /// The exit status of the program: 0 where all was written.
    pub fn exit(self) -> u8
        ensures { result ≡ exit_of self }
    {
        match self {
            WhatIfStatus::Done => 0,
            WhatIfStatus::BadModel | WhatIfStatus::BadEdit(_) => 1,
            WhatIfStatus::BadWords => 2,
            WhatIfStatus::ReadFault | WhatIfStatus::WriteFault => 3,
            WhatIfStatus::OutOfMemory => 5,
        }
    }
}
