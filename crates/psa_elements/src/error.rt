ghost use Rattle.std.specs.Prelude.{◌≡◌};
ghost use Rattle.psa_elements.specs.declared.error.ReadError.TheVariants.{Memory};

use psa_model::ModelFault;
use psa_text::OutOfMemory;
use thiserror::Error;

/// Why trees give no draft.
#[derive(Debug, Drop, Error)]
pub enum ReadError {
    /// The first fault of shape.
    #[error("fault of shape")]
    Fault(ModelFault),
    /// Memory was wanted.
    #[error("out of memory")]
    Memory,
}

impl From<OutOfMemory> for ReadError {
    ghost from_gives = { λ _ e. e ≡ Memory };

    fn from(_error: OutOfMemory) -> ReadError {
        ReadError::Memory
    }
}
