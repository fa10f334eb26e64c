ghost use Rattle.std.specs.Prelude.{⊤};

use psa_ports::Failed;
use thiserror::Error;

/// A sink did not take a line; its count of faults has risen.
#[derive(Clone, Copy, Debug, Drop, PartialEq, Eq, Error)]
#[error("cannot write")]
pub struct WriteFault;

impl From<Failed> for WriteFault {
    ghost from_gives = { λ _ _. ⊤ };

    fn from(_error: Failed) -> WriteFault {
        WriteFault
    }
}
