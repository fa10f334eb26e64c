ghost use Rattle.psa_report.specs.Pieces.{bytes_of, Writes};

use crate::WriteFault;
use psa_ports::{Sink, put};

/// Writes a piece.
pub(crate) fn put_one<S: Sink>(out: &mut S, piece: &str) -> Result<(), WriteFault>
    ensures { Writes (S.written out.old) (S.written out.new) (S.faults out.old) (S.faults out.new)
        piece.now result }
{
    put(out, piece.as_bytes())?;
    Ok(())
}

/// Writes bytes.
pub(crate) fn put_bytes<S: Sink>(out: &mut S, bytes: &[u8]) -> Result<(), WriteFault>
    ensures { Writes (S.written out.old) (S.written out.new) (S.faults out.old) (S.faults out.new)
        bytes.now result }
{
    put(out, bytes)?;
    Ok(())
}

/// Writes pieces, one after another. It takes no memory.
/// Refuses only where the sink does; a prefix of them was written then.
pub fn put_all<S: Sink>(out: &mut S, pieces: &[&str]) -> Result<(), WriteFault>
    ensures { Writes (S.written out.old) (S.written out.new) (S.faults out.old) (S.faults out.new)
        (bytes_of pieces.now) result }
{
    for piece in pieces {
        put_one(out, piece)?;
    }
    Ok(())
}
