ghost use Rattle.std.specs.Prelude.{◌≡◌, ◌<◌, ◌≤◌, ◌++◌, [], IfOk, OnOk, length, take};
ghost use Rattle.std.specs.Io.{WritesAtMost};
ghost use Rattle.std.specs.Io.KnownBytes.{Keeps, WriteAppends};
ghost use Rattle.psa_ports.specs.BlockSink.{bytes_in};
ghost use Rattle.psa_ports.specs.Counts.{HasCause};

use crate::{Failed, Sink};
use psa_text::OutOfMemory;
use std::alloc::Global;
use std::marker::Model;

/// A sink over another one, to which it passes its bytes on in whole blocks.
///
/// It has taken what the other sink took from it and what still waits. The block is made with the sink, so
/// a write takes no memory. What waits is passed on by `flush`, and lost where the sink is dropped before.
#[derive(Drop)]
pub struct BlockSink<S: Sink + Drop> {
    sink: S,
    block: Vec<u8>,
    /// How many of the block's first bytes are passed on already.
    passed: usize,
    size: usize,
}

impl<S: Sink + Drop> Model for BlockSink<S> {
    ghost use Rattle.std.specs.Prelude.{◌<◌, ◌≤◌, ◌-◌, drop, vec_len};
    ghost use Rattle.std.specs.Vec.{vec_capacity};
    ghost use Rattle.psa_ports.specs.BlockSink.{BlockState};

    ghost Value = { BlockState S };

    ghost view = { λ b. record {
      sink = b.sink;
      waiting = drop b.passed b.block.items;
      room = b.size - vec_len b.block;
    } };

    ghost invariant = { λ b. (0 < b.size) × (b.size ≤ vec_capacity b.block)
        × (vec_len b.block ≤ b.size) × (b.passed ≤ vec_len b.block) };
}

impl<S: Sink + Drop> BlockSink<S> {
    /// A sink over `sink` where nothing waits, with room for a block of `size` bytes, at least 1, taken now.
    /// Refuses only for want of memory.
    pub fn new(alloc: Global, sink: S, size: usize) -> Result<BlockSink<S>, OutOfMemory>
        requires { 0 < size }
        ensures { IfOk result (λ made. made ≡ record { sink = sink; waiting = []; room = size }) }
    {
        let block = Vec::with_capacity(alloc, size)?;
        Ok(BlockSink {
            sink,
            block,
            passed: 0,
            size,
        })
    }

    /// The sink to which it passes its bytes on.
    pub fn sink(&self) -> &S
        ensures { result.now ≡ self.now.sink }
    {
        &self.sink
    }

    /// Passes on what waits, in as many writes as the other sink asks for.
    fn pass_on(&mut self) -> Result<(), Failed>
        ensures kept { Keeps (bytes_in S.written self.old) (bytes_in S.written self.new) }
        ensures passed { OnOk result (self.new.waiting ≡ []) }
        ensures cause { HasCause (S.faults self.old.sink) (S.faults self.new.sink) result }
    {
        while self.passed < self.block.len() {
            self.passed += self.sink.write(self.block.split_at(self.passed).1)?;
        }
        Ok(())
    }

    /// Takes as many bytes as the block has room for, at least one.
    fn take(&mut self, piece: &[u8]) -> usize
        requires piece { 0 < length piece.now }
        requires room { 0 < self.old.room }
        ensures least { 0 < result }
        ensures most { result ≤ length piece.now }
        ensures waiting { self.new.waiting ≡ self.old.waiting ++ take result piece.now }
        ensures sink { self.new.sink ≡ self.old.sink }
    {
        let count = piece.len().min(self.size - self.block.len());
        self.block
            .extend_from_slice(piece.split_at(count).0)
            .unwrap();
        count
    }
}

impl<S: Sink + Drop> Sink for BlockSink<S> {
    ghost use Rattle.std.specs.Prelude.{ℕ, List, Option};
    ghost use Rattle.psa_ports.specs.BlockSink.{bytes_in};

    ghost written = { bytes_in S.written };

    ghost faults = { λ b. S.faults b.sink };

    ghost waiting = { λ b. b.waiting };

    /// Takes as many bytes as the block has room for, and passes a full block on before. Refuses where the
    /// other sink does.
    fn write(&mut self, piece: &[u8]) -> Result<usize, Failed> {
        if self.block.len() >= self.size {
            self.pass_on()?;
            self.block.clear();
            self.passed = 0;
            return Ok(self.take(piece));
        }
        Ok(self.take(piece))
    }

    fn flush(&mut self) -> Result<(), Failed> {
        self.pass_on()
    }
}
