ghost use Rattle.std.specs.Prelude.{◌≡◌, ◌<◌, ℕ, List, [], Option, Some, Ok, not, is_ok, IfOk, length};
ghost use Rattle.std.specs.Io.{WritesAtMost};
ghost use Rattle.std.specs.Io.KnownBytes.{Keeps, WriteAppends};
ghost use Rattle.psa_ports.specs.Counts.{HasCause};
ghost use Rattle.psa_ports.specs.MemorySink.{new_sink, refuses, write_count, after_write};

use crate::{Failed, Sink};
use psa_text::{Items, OutOfMemory};
use std::alloc::Global;
use std::marker::Model;

/// A sink in memory, which takes its bytes in pieces and fails where it is told to.
///
/// Its writes are numbered from 0, and the number is held at 2^64 - 1. A write fails whose number
/// is in `failing`, and one that finds `room` bytes taken already; no other write fails. Each failed
/// write, and nothing else, raises its count of faults. A write takes no memory.
#[derive(Drop)]
pub struct MemorySink {
    bytes: Vec<u8>,
    room: usize,
    piece: usize,
    failing: Items<u64>,
    writes: u64,
    faults: u64,
}

impl Model for MemorySink {
    ghost use Rattle.std.specs.Prelude.{◌<◌, ◌≤◌, vec_len};
    ghost use Rattle.std.specs.Vec.{vec_capacity};
    ghost use Rattle.psa_ports.specs.MemorySink.{SinkState};

    ghost Value = { SinkState };

    ghost view = { λ s. record {
      written = s.bytes.items;
      room = s.room;
      piece = s.piece;
      failing = s.failing;
      writes = s.writes;
      faults = s.faults;
    } };

    ghost invariant = { λ s.
        (0 < s.piece) × (s.room ≤ vec_capacity s.bytes) × (vec_len s.bytes ≤ s.room) };
}

impl MemorySink {
    /// A sink that has taken nothing, with its room of `room` bytes taken now. One write takes at
    /// most `piece` bytes, which is at least 1; `failing` has the numbers of the writes that fail.
    /// Refuses only for want of memory.
    pub fn new(
        alloc: Global,
        room: usize,
        piece: usize,
        failing: Items<u64>,
    ) -> Result<MemorySink, OutOfMemory>
        requires { 0 < piece }
        ensures { IfOk result (λ made. made ≡ new_sink room piece failing) }
    {
        let bytes = Vec::with_capacity(alloc, room)?;
        Ok(MemorySink {
            bytes,
            room,
            piece,
            failing,
            writes: 0,
            faults: 0,
        })
    }

    /// All bytes that it took, in order.
    pub fn written(&self) -> &[u8]
        ensures { result.now ≡ self.now.written }
    {
        self.bytes.as_slice()
    }

    /// How many writes failed, held at 2^64 - 1.
    pub fn faults(&self) -> u64
        ensures { result ≡ self.now.faults }
    {
        self.faults
    }
}

impl Sink for MemorySink {
    ghost written = { λ s. Some s.written };

    ghost faults = { λ s. s.faults };

    ghost waiting = { λ _. [] };

    /// Takes as many bytes as `piece`, the sink's own piece and its room allow. Refuses exactly
    /// where this write is one of those that fail or the room is full; nothing is taken then.
    fn write(&mut self, piece: &[u8]) -> Result<usize, Failed>
        requires { 0 < length piece.now }

        ensures least { IfOk result (λ count. 0 < count) }
        ensures most { WritesAtMost result piece.now }
        ensures bytes { WriteAppends
            (Some self.old.written) (Some self.new.written) result piece.now }
        ensures cause { HasCause self.old.faults self.new.faults result }

        ensures fails { is_ok result ≡ not (refuses self.old) }
        ensures count { IfOk result (λ count. count ≡ write_count self.old (length piece.now)) }
        ensures exact { self.new ≡ after_write self.old piece.now }
    {
        let failing = self.failing.as_slice().contains(&self.writes);
        self.writes = self.writes.saturating_add(1);
        if failing || self.bytes.len() >= self.room {
            self.faults = self.faults.saturating_add(1);
            return Err(Failed);
        }
        let count = piece
            .len()
            .min(self.piece)
            .min(self.room - self.bytes.len());
        self.bytes
            .extend_from_slice(piece.split_at(count).0)
            .unwrap();
        Ok(count)
    }

    /// Nothing waits in memory.
    fn flush(&mut self) -> Result<(), Failed>
        ensures kept { Keeps (Some self.old.written) (Some self.new.written) }
        ensures cause { HasCause self.old.faults self.new.faults result }
        ensures exact { (result ≡ Ok tt) × (self.new ≡ self.old) }
    {
        Ok(())
    }
}
