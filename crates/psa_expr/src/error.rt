ghost use Rattle.std.specs.Prelude.{◌≡◌};
ghost use Rattle.psa_expr.specs.declared.error.ValueError.TheVariants.{Memory};

use psa_model::ModelFault;
use std::alloc::AllocError;
use thiserror::Error;

/// Why a model's events have no values.
#[derive(Debug, Drop, Error)]
pub enum ValueError {
    /// The first fault of a value.
    #[error("an event has no value")]
    Fault(ModelFault),
    /// Memory ran out.
    #[error("out of memory")]
    Memory,
}

impl From<AllocError> for ValueError {
    ghost from_gives = { λ _ e. e ≡ Memory };

    fn from(_error: AllocError) -> ValueError {
        ValueError::Memory
    }
}
