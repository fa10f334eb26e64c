ghost use Rattle.std.specs.Prelude.{◌≡◌};
ghost use Rattle.psa_walk.specs.declared.walk.Stop.TheVariants as stop;

use psa_model::{InitiatingId, Model};
use psa_text::OutOfMemory;
use thiserror::Error;

/// The walk of an initiating event.
#[derive(Clone, Copy)]
pub struct Walk<'a> {
    pub model: &'a Model,
    pub initiating: InitiatingId,
}

/// Why a walk stops.
#[derive(Clone, Copy, Debug, PartialEq, Eq, Error)]
pub enum Stop {
    /// An instruction too many would be carried out on a path.
    #[error("long path")]
    LongPath,
    /// A path too many would arrive.
    #[error("too many paths")]
    TooManyPaths,
    /// Memory was wanted.
    #[error("out of memory")]
    Memory,
}

impl From<OutOfMemory> for Stop {
    ghost from_gives = { λ _ e. e ≡ stop.Memory };

    fn from(_error: OutOfMemory) -> Stop {
        Stop::Memory
    }
}
