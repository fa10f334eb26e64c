ghost use Rattle.std.specs.Prelude.{◌≡◌};
ghost use Rattle.psa_names.specs.declared.error.CheckError.TheVariants.{Memory};

use psa_model::ModelFault;
use psa_text::OutOfMemory;
use thiserror::Error;

/// Why the names of a draft are not resolved.
#[derive(Debug, Drop, Error)]
pub enum CheckError {
    /// The first fault of names.
    #[error("fault of names")]
    Fault(ModelFault),
    /// Memory was wanted.
    #[error("out of memory")]
    Memory,
}

impl From<OutOfMemory> for CheckError {
    ghost from_gives = { λ _ e. e ≡ Memory };

    fn from(_error: OutOfMemory) -> CheckError {
        CheckError::Memory
    }
}
