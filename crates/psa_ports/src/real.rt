ghost use Rattle.std.specs.Prelude.{◌≡◌, ◌<◌, ℕ, List, [], Option, Some, None, true, false, is_ok, is_some, IfOk, OnErr, MatchOption, take, length};
ghost use Rattle.std.specs.Io.{ReadsAtMost, WritesAtMost};
ghost use Rattle.std.specs.Io.KnownBytes.{Appends, ReadConsumes, WriteAppends};
ghost use Rattle.psa_ports.specs.Counts.{HasCause, one_more};
ghost use Rattle.psa_ports.specs.Real.{new_files, faults_after};

use crate::{Failed, Folder, Sink};
use std::fs;
use std::io::{Read, Write};
use std::marker::Model;
use std::rt::Files;

/// The files of the operating system. It tells no content, allows every name, and counts faults,
/// opens and reads.
#[derive(Drop)]
pub struct StdFolder<R: Files> {
    files: R,
    opened: Option<R::File>,
    faults: u64,
    opens: u64,
    reads: u64,
}

impl<R: Files> Model for StdFolder<R> {
    ghost use Rattle.std.specs.Prelude.{List, [], ℕ, Option, Some, MatchOption, is_some};
    ghost use Rattle.psa_ports.specs.Real.{FilesState, left_of};

    ghost Value = { FilesState };

    ghost view = { λ f. record {
      is_open = is_some f.opened;
      left = left_of R.File.remaining f.opened;
      faults = f.faults;
      opens = f.opens;
      reads = f.reads;
    } };
}

impl<R: Files> StdFolder<R> {
    /// A folder of the files that `files` opens. Nothing is open, and each count is 0.
    pub fn new(files: R) -> StdFolder<R>
        ensures { result ≡ new_files }
    {
        StdFolder {
            files,
            opened: None,
            faults: 0,
            opens: 0,
            reads: 0,
        }
    }

    /// How many calls failed, held at 2^64 - 1.
    pub fn faults(&self) -> u64
        ensures { result ≡ self.now.faults }
    {
        self.faults
    }

    /// How many calls of `open` there were, held at 2^64 - 1.
    pub fn opens(&self) -> u64
        ensures { result ≡ self.now.opens }
    {
        self.opens
    }

    /// How many calls of `read` there were, held at 2^64 - 1.
    pub fn reads(&self) -> u64
        ensures { result ≡ self.now.reads }
    {
        self.reads
    }
}

impl<R: Files> Folder for StdFolder<R> {
    ghost texts = { λ _. None };

    ghost rest = { λ _. None };

    ghost faults = { λ f. f.faults };

    ghost opens = { λ f. f.opens };

    ghost reads = { λ f. f.reads };

    ghost allows = { λ _ _. true };

    /// Opens the file. Refuses where the system does; nothing is open then.
    fn open(&mut self, name: &str) -> Result<(), Failed>
        ensures cause { HasCause self.old.faults self.new.faults result }
        ensures opens { self.new.opens ≡ one_more self.old.opens }
        ensures reads { self.new.reads ≡ self.old.reads }

        ensures open { self.new.is_open ≡ is_ok result }
        ensures shut { OnErr result (self.new.left ≡ Some []) }
        ensures faults { self.new.faults ≡ faults_after self.old.faults result }
    {
        self.opens = self.opens.saturating_add(1);
        self.opened = None;
        match fs::open(&self.files, name) {
            Ok(file) => {
                self.opened = Some(file);
                Ok(())
            }
            Err(_) => {
                self.faults = self.faults.saturating_add(1);
                Err(Failed)
            }
        }
    }

    /// Reads from the opened file, once. Refuses where the system does. Where nothing is open it gives 0.
    fn read(&mut self, buf: &mut [u8]) -> Result<usize, Failed>
        ensures bound { ReadsAtMost result buf.new }
        ensures cause { HasCause self.old.faults self.new.faults result }
        ensures reads { self.new.reads ≡ one_more self.old.reads }
        ensures opens { self.new.opens ≡ self.old.opens }

        ensures open { self.new.is_open ≡ self.old.is_open }
        ensures bytes { ReadConsumes self.old.left self.new.left result buf.new }
        ensures closed { self.old.is_open ≡ false → result ≡ Ok 0 }
        ensures faults { self.new.faults ≡ faults_after self.old.faults result }
    {
        self.reads = self.reads.saturating_add(1);
        let Some(file) = &mut self.opened else {
            return Ok(0);
        };
        match file.read(buf) {
            Ok(count) => Ok(count),
            Err(_) => {
                self.faults = self.faults.saturating_add(1);
                Err(Failed)
            }
        }
    }
}

/// A writer of std, flushed after each write. It tells no content, and counts its faults.
#[derive(Drop)]
pub struct StdSink<W: Write> {
    writer: W,
    faults: u64,
}

impl<W: Write> Model for StdSink<W> {
    ghost use Rattle.psa_ports.specs.Real.{WriterState};

    ghost Value = { WriterState };

    ghost view = { λ s. record { contents = W.contents s.writer; faults = s.faults } };
}

impl<W: Write> StdSink<W> {
    /// A sink that writes to `writer`, with no fault yet.
    pub fn new(writer: W) -> StdSink<W>
        ensures { result ≡ record { contents = W.contents writer; faults = 0 } }
    {
        StdSink { writer, faults: 0 }
    }

    /// How many writes failed, held at 2^64 - 1.
    pub fn faults(&self) -> u64
        ensures { result ≡ self.now.faults }
    {
        self.faults
    }
}

impl<W: Write> Sink for StdSink<W> {
    ghost written = { λ _. None };

    ghost faults = { λ s. s.faults };

    ghost waiting = { λ _. [] };

    /// Writes once, and flushes. Refuses where the writer fails, takes nothing, or can't be flushed.
    fn write(&mut self, piece: &[u8]) -> Result<usize, Failed>
        ensures least { IfOk result (λ count. 0 < count) }
        ensures most { WritesAtMost result piece.now }
        ensures cause { HasCause self.old.faults self.new.faults result }

        ensures bytes { IfOk result (λ count.
            Appends self.old.contents self.new.contents (take count piece.now)) }
        ensures faults { self.new.faults ≡ faults_after self.old.faults result }
    {
        if let Ok(count) = self.writer.write(piece)
            && count > 0
            && self.writer.flush().is_ok()
        {
            return Ok(count);
        }
        self.faults = self.faults.saturating_add(1);
        Err(Failed)
    }

    /// Nothing waits, since each write is flushed.
    fn flush(&mut self) -> Result<(), Failed>
        ensures cause { HasCause self.old.faults self.new.faults result }
        ensures exact { (result ≡ Ok tt) × (self.new ≡ self.old) }
    {
        Ok(())
    }
}
