ghost use Rattle.std.specs.Prelude.{◌≡◌, ◌<◌, ℕ, List, Option, Bool, IsTrue, OnOk, OnErr, length};
ghost use Rattle.std.specs.Io.{ReadsAtMost};
ghost use Rattle.std.specs.Io.KnownBytes.{ReadConsumes, IsAtEnd};
ghost use Rattle.psa_ports.specs.Counts.{HasCause, one_more};
ghost use Rattle.psa_ports.specs.Folder.{Opens};

use crate::Failed;

/// Files that are read one at a time, by name and in pieces.
///
/// A folder has these meanings. `texts`: the name and the bytes of each file, where they are told.
/// `rest`: the bytes of the opened file that are not yet read, where they are told. `faults`: a
/// count of faults that never falls. `opens` and `reads`: the numbers of calls of `open` and of
/// `read`. `allows`: the names that may be opened. Each count is held at 2^64 - 1, and no call
/// changes `texts` or `allows`. What is not told, no clause speaks of.
pub trait Folder {
    ghost texts: { Self → Option (List (List ℕ × List ℕ)) };

    ghost rest: { Self → Option (List ℕ) };

    ghost faults: { Self → ℕ };

    ghost opens: { Self → ℕ };

    ghost reads: { Self → ℕ };

    ghost allows: { Self → List ℕ → Bool };

    /// Opens the file `name`, in place of the one before: the first of `texts` with this name.
    /// Refuses, with nothing left to read, only where `faults` rose in this call.
    fn open(&mut self, name: &str) -> Result<(), Failed>
        requires { IsTrue (allows self.old name.now) }

        ensures opened { OnOk result (Opens (texts self.old) name.now (rest self.new)) }
        ensures shut { OnErr result (IsAtEnd (rest self.new)) }
        ensures cause { HasCause (faults self.old) (faults self.new) result }

        // Each call counts, also one that fails.
        ensures opens { opens self.new ≡ one_more (opens self.old) }
        ensures reads { reads self.new ≡ reads self.old }

        ensures texts { texts self.new ≡ texts self.old }
        ensures allows { allows self.new ≡ allows self.old };

    /// Moves the next bytes of the opened file to the front of `buf`, and answers their number,
    /// which is 0 only at the file's end. Refuses, with `rest` unchanged, only where `faults` rose
    /// in this call.
    fn read(&mut self, buf: &mut [u8]) -> Result<usize, Failed>
        requires { 0 < length buf.old }

        ensures bound { ReadsAtMost result buf.new }
        ensures bytes { ReadConsumes (rest self.old) (rest self.new) result buf.new }
        ensures cause { HasCause (faults self.old) (faults self.new) result }

        // Each call counts, also one that fails.
        ensures reads { reads self.new ≡ one_more (reads self.old) }
        ensures opens { opens self.new ≡ opens self.old }

        ensures texts { texts self.new ≡ texts self.old }
        ensures allows { allows self.new ≡ allows self.old };
}
