ghost use Rattle.std.specs.Prelude.{◌≡◌};
ghost use Rattle.psa_words.specs.declared.fault.WordsError.TheVariants.{BadWords, Memory};

use psa_number::NumberFault;
use std::alloc::AllocError;
use thiserror::Error;

/// Why the words of a command line give no settings.
#[derive(Debug, Drop, PartialEq, Eq, Error)]
pub enum WordsError {
    /// The words are refused.
    #[error("bad words")]
    BadWords,
    /// Memory ran out.
    #[error("out of memory")]
    Memory,
}

/// A number that is refused makes the words refused.
impl From<NumberFault> for WordsError {
    ghost from_gives = { λ _ e. e ≡ BadWords };

    fn from(_fault: NumberFault) -> WordsError {
        WordsError::BadWords
    }
}

impl From<AllocError> for WordsError {
    ghost from_gives = { λ _ e. e ≡ Memory };

    fn from(_error: AllocError) -> WordsError {
        WordsError::Memory
    }
}
