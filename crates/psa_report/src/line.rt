ghost use Rattle.std.specs.Prelude.{◌≡◌, ◌<◌, ◌≤◌, ◌^◌, ◌-◌, ℕ, List, [], Option, Some, take, IfOk, OnOk, length};
ghost use Rattle.std.specs.Io.{WritesAtMost};
ghost use Rattle.std.specs.Io.KnownBytes.{Keeps, WriteAppends};
ghost use Rattle.psa_ports.specs.Counts.{HasCause};

use arrayvec::ArrayVec;
use psa_ports::{Failed, Sink};

/// The most bytes of a line that is made before it is written.
const LINE_LENGTH: usize = 1024;

/// A line that is made piece by piece. It takes a piece whole, or refuses it where it has no room.
#[derive(Drop)]
pub(crate) struct Line {
    text: ArrayVec<u8, LINE_LENGTH>,
}

impl Line {
    /// A line without bytes.
    pub(crate) fn new() -> Line
        ensures { result.text.items ≡ [] }
    {
        Line {
            text: ArrayVec::new(),
        }
    }

    /// How many bytes it has.
    pub(crate) fn len(&self) -> usize
        ensures { result ≡ length self.now.text.items }
    {
        self.text.len()
    }

    /// Its bytes.
    pub(crate) fn as_slice(&self) -> &[u8]
        ensures { result.now ≡ self.now.text.items }
    {
        self.text.as_slice()
    }

    /// Keeps its first bytes.
    pub(crate) fn truncate(&mut self, length: usize)
        ensures { self.new.text.items ≡ take length self.old.text.items }
    {
        self.text.truncate(length);
    }
}

impl Sink for Line {
    ghost use Rattle.std.specs.Prelude.{◌^◌, ◌-◌, ℕ, List, [], Option, Some};

    ghost written = { λ line. Some line.text.items };

    // The count stands at its last value, so each refusal shows in it.
    ghost faults = { λ line. 2 ^ 64 - 1 };

    ghost waiting = { λ line. [] };

    /// Takes a piece whole, or refuses it for want of room.
    fn write(&mut self, piece: &[u8]) -> Result<usize, Failed> {
        match self.text.try_extend_from_slice(piece) {
            Ok(()) => Ok(piece.len()),
            Err(_) => Err(Failed),
        }
    }

    fn flush(&mut self) -> Result<(), Failed> {
        Ok(())
    }
}
