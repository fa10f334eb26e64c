ghost use Rattle.std.specs.Prelude.{◌≡◌};
ghost use Rattle.psa_engine.specs.Ends.{status_of};

use psa_model::ModelFault;
use psa_outcome::Status;
use psa_text::Text;

/// How a run by some settings ended.
#[derive(Drop)]
pub enum End {
    /// All was written.
    Done,
    /// The model has this first fault, in the file of this name.
    Bad(ModelFault, Text),
    /// The file with this number, from 0, could not be opened or read.
    Read(u32),
    /// The report could not be written.
    Write,
    /// As many nodes stand as the limit allows: at the target with this number, from 1.
    Full(u32),
    /// Memory was wanting.
    Memory,
}

impl End {
    /// The status that tells it.
    pub fn status(&self) -> Status
        ensures { result ≡ status_of self.now }
    {
        match self {
            End::Done => Status::Done,
            End::Bad(_, _) => Status::BadModel,
            End::Read(_) => Status::ReadFault,
            End::Write => Status::WriteFault,
            End::Full(number) => Status::NodeLimit(*number),
            End::Memory => Status::OutOfMemory,
        }
    }
}
