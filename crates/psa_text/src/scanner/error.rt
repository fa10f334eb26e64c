ghost use Rattle.std.specs.Prelude.{◌≡◌};

use thiserror::Error;

/// What is wrong with a text. The limits are those of [`limits`](crate::limits).
#[derive(Debug, Clone, Copy, PartialEq, Eq, Drop)]
pub enum TextKind {
    /// More bytes than `MAX_FILE_BYTES`, or more elements than `MAX_ELEMENTS`.
    LongFile,
    /// Bytes that no item has there (XML 1.0, in this project's profile).
    BadMarkup,
    /// A name of more bytes than `MAX_NAME_BYTES`, a value of more than `MAX_VALUE_BYTES`, or a tag
    /// of more attributes than `MAX_ATTRIBUTES`.
    LongToken,
    /// Items that are no tree of depth `MAX_DEPTH` at most, or a text outside `label`.
    BadNesting,
}

/// The first fault of a text, with its line, counted from 1.
#[derive(Debug, Clone, Copy, PartialEq, Eq, Drop)]
pub struct TextFault {
    pub kind: TextKind,
    pub line: u32,
}

/// Why a text has no tree: its first fault, or memory ran out.
#[derive(Debug, Clone, Copy, PartialEq, Eq, Drop, Error)]
pub enum TextError {
    #[error("the text has a fault")]
    Fault(TextFault),
    #[error("out of memory")]
    Memory,
}
