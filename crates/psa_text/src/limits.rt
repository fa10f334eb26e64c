//! The limits of a text. (This project's own.)

/// The most bytes of a text.
pub const MAX_FILE_BYTES: u32 = 67_108_864;
/// The most elements of a text.
pub const MAX_ELEMENTS: u32 = 1_000_000;
/// The deepest that an element may stand; the root stands at 1.
pub const MAX_DEPTH: usize = 64;
/// The most bytes of the name of a tag or an attribute.
pub const MAX_NAME_BYTES: usize = 64;
/// The most bytes of a value between its quotes.
pub const MAX_VALUE_BYTES: usize = 512;
/// The most attributes of a tag.
pub const MAX_ATTRIBUTES: usize = 32;
/// The most digits of a reference to a character by its number.
pub const MAX_REFERENCE_DIGITS: u8 = 8;
