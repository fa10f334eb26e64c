ghost use Rattle.std.specs.Prelude.{◌≡◌, ◌<◌, ℕ, List, [], Option, IfOk, OnOk, length};
ghost use Rattle.std.specs.Io.{WritesAtMost};
ghost use Rattle.std.specs.Io.KnownBytes.{Appends, Keeps, WriteAppends};
ghost use Rattle.psa_ports.specs.Counts.{HasCause};
ghost use Rattle.psa_ports.specs.Sink.{AppendsPrefix};

use crate::Failed;

/// What takes bytes, piece by piece.
///
/// A sink has these meanings. `written`: the bytes that it has taken, where they are told.
/// `faults`: a count of faults that never falls, held at 2^64 - 1. `waiting`: those of the bytes taken
/// that are kept back until `flush`. What is not told, no clause speaks of.
pub trait Sink {
    ghost written: { Self → Option (List ℕ) };

    ghost faults: { Self → ℕ };

    ghost waiting: { Self → List ℕ };

    /// Takes the first bytes of `piece`, at least one, and answers their number.
    /// Refuses, with `written` unchanged, only where `faults` rose in this call.
    fn write(&mut self, piece: &[u8]) -> Result<usize, Failed>
        requires { 0 < length piece.now }

        ensures least { IfOk result (λ count. 0 < count) }
        ensures most { WritesAtMost result piece.now }
        ensures bytes { WriteAppends (written self.old) (written self.new) result piece.now }
        ensures cause { HasCause (faults self.old) (faults self.new) result };

    /// Passes on what was kept back, so that nothing waits. Refuses only where `faults` rose in this call;
    /// what was taken stays taken.
    fn flush(&mut self) -> Result<(), Failed>
        ensures kept { Keeps (written self.old) (written self.new) }
        ensures passed { OnOk result (waiting self.new ≡ []) }
        ensures cause { HasCause (faults self.old) (faults self.new) result };
}

/// Writes all of `bytes`, in as many writes as `sink` asks for. It takes no memory. Refuses only
/// where the sink's `faults` rose in this call; a prefix of `bytes` was appended then.
pub fn put<S: Sink>(sink: &mut S, bytes: &[u8]) -> Result<(), Failed>
    ensures whole { OnOk result (Appends (S.written sink.old) (S.written sink.new) bytes.now) }
    ensures part { AppendsPrefix (S.written sink.old) (S.written sink.new) bytes.now }
    ensures cause { HasCause (S.faults sink.old) (S.faults sink.new) result }
{
    let mut at = 0;
    while at < bytes.len() {
        at += sink.write(bytes.split_at(at).1)?;
    }
    Ok(())
}
