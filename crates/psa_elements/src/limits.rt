/// The greatest number of bytes of a name; each part of a path is a name.
pub const MAX_NAME: usize = 128;

/// The greatest number of digits of `min`, `max` and `level`.
pub const MAX_DIGITS: usize = 4;
