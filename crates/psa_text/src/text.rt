ghost use Rattle.std.specs.Prelude.{◌≡◌, ◌<◌, [], All, IfOk, length};

use crate::OutOfMemory;
use arrayvec::ArrayString;
use std::alloc::Global;
use std::marker::Model;

/// A text of at most this many bytes takes no memory of its own.
const MAX_SHORT: usize = 24;

/// A text that owns its bytes; contracts see it as the list of its bytes.
#[derive(Debug, Drop)]
pub struct Text {
    kept: Kept,
}

/// The bytes of a text: beside the text itself where they are few.
#[derive(Debug, Drop)]
enum Kept {
    Short(ArrayString<MAX_SHORT>),
    Long(String),
}

impl Model for Text {
    ghost use Rattle.std.specs.Prelude.{List, ℕ};
    ghost use Rattle.psa_text.specs.Kept.{kept_bytes};

    ghost Value = { List ℕ };

    ghost view = { λ t. kept_bytes t.kept };
}

impl Text {
    /// The empty text.
    pub(crate) fn new(_alloc: Global) -> Text
        ensures { result ≡ [] }
    {
        Text {
            kept: Kept::Short(ArrayString::new()),
        }
    }

    /// A text with the bytes of `text`.
    pub fn from_str(alloc: Global, text: &str) -> Result<Text, OutOfMemory>
        ensures { IfOk result (λ made. made ≡ text.now) }
    {
        let kept = match ArrayString::from(text) {
            Ok(short) => Kept::Short(short),
            Err(_) => Kept::Long(String::from_str(alloc, text)?),
        };
        Ok(Text { kept })
    }

    /// A text with these bytes, each of them ASCII.
    pub fn from_ascii(alloc: Global, bytes: &[u8]) -> Result<Text, OutOfMemory>
        requires { All (λ b. b < 128) bytes.now }
        ensures { IfOk result (λ made. made ≡ bytes.now) }
    {
        let mut text = String::new(alloc);
        for byte in bytes {
            text.push(char::from(*byte))?;
        }
        Text::from_str(alloc, text.as_str())
    }

    /// The text, borrowed.
    pub fn as_str(&self) -> &str
        ensures { result.now ≡ self.now }
    {
        match &self.kept {
            Kept::Short(text) => text.as_str(),
            Kept::Long(text) => text.as_str(),
        }
    }

    /// Its bytes, borrowed.
    pub fn as_bytes(&self) -> &[u8]
        ensures { result.now ≡ self.now }
    {
        self.as_str().as_bytes()
    }

    /// The number of its bytes.
    pub fn len(&self) -> usize
        ensures { result ≡ length self.now }
    {
        self.as_str().len()
    }
}
