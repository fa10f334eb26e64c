ghost use Rattle.std.specs.Prelude.{◌≡◌};

use crate::limits::MAX_NAME_BYTES;
use arrayvec::ArrayVec;
use std::marker::Model;

/// A name of at most [`MAX_NAME_BYTES`] bytes, without memory of its own; contracts see it as the
/// list of its bytes.
#[derive(Debug, Drop)]
pub struct Name {
    bytes: ArrayVec<u8, MAX_NAME_BYTES>,
}

impl Model for Name {
    ghost use Rattle.std.specs.Prelude.{List, ℕ};

    ghost Value = { List ℕ };

    ghost view = { λ n. n.bytes.items };
}

impl Name {
    pub fn new(bytes: ArrayVec<u8, MAX_NAME_BYTES>) -> Name
        ensures { result ≡ bytes.items }
    {
        Name { bytes }
    }

    /// Its bytes, borrowed.
    pub fn as_bytes(&self) -> &[u8]
        ensures { result.now ≡ self.now }
    {
        self.bytes.as_slice()
    }
}
