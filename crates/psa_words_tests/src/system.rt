//! Adapters of the system's files and of a writer of std.
ghost use Rattle.std.specs.Prelude.{◌<◌, ◌≤◌, ◌^◌, IsTrue, length};

use crate::lines::{put, put_number};
use crate::port_rows::{IN_TURN, SYSTEM};
use crate::ports::put_counts;
use crate::rows::put_if_wrong;
use psa_ports::{Failed, Folder, StdFolder, StdSink, put as put_all};
use std::alloc::Global;
use std::io;
use std::io::Write;
use std::mem::forget;
use std::rt::Files;

#[derive(Clone, Copy)]
pub enum Fault {
    Write,
    Nothing,
    Flush,
}

// A writer that fails in one way.
#[derive(Drop)]
struct Faulty {
    fault: Fault,
}

impl Write for Faulty {
    fn write(&mut self, buf: &[u8]) -> io::Result<usize> {
        match self.fault {
            Fault::Write => Err(io::Error::from(io::ErrorKind::BrokenPipe)),
            Fault::Nothing => Ok(0),
            Fault::Flush => Ok(buf.len()),
        }
    }

    fn flush(&mut self) -> io::Result<()> {
        match self.fault {
            Fault::Flush => Err(io::Error::from(io::ErrorKind::BrokenPipe)),
            _ => Ok(()),
        }
    }
}

/// Whether a writer takes two texts whole, without a fault.
pub fn writes(alloc: Global) -> bool {
    let mut bytes = Vec::new(alloc);
    let mut sink = StdSink::new(&mut bytes);
    let first = put_all(&mut sink, b"heading, ").is_ok();
    let second = put_all(&mut sink, b"rows").is_ok();
    let none = sink.faults() == 0;
    first && second && none && bytes.as_slice() == b"heading, rows".as_slice()
}

/// Whether a writer with a fault fails at some bytes and not at none, and counts this once.
pub fn fails(fault: Fault) -> bool {
    let mut sink = StdSink::new(Faulty { fault });
    let nothing = put_all(&mut sink, b"").is_ok();
    let rows = put_all(&mut sink, b"rows").is_err();
    nothing && rows && sink.faults() == 1
}

/// A number of bytes, or `failed`.
fn put_count(out: &mut String, count: Result<usize, Failed>) {
    match count {
        Ok(count) => put_number(out, &count),
        Err(Failed) => put(out, "failed"),
    }
}

/// What a run asks of a new folder: that it may still be opened often.
fn first_bytes<F: Folder>(folder: &mut F, name: &str, buf: &mut [u8]) -> Result<usize, Failed>
    requires allowed { IsTrue (F.allows folder.old name.now) }
    requires opens { F.opens folder.old ≤ 2 ^ 63 }
    requires least { 0 < length buf.old }
{
    folder.open(name)?;
    folder.read(buf)
}

/// What a new folder gives of a file of the system.
fn put_first_bytes<R: Files + Drop>(files: R, out: &mut String, name: &str) {
    let mut folder = StdFolder::new(files);
    let mut buf = [1u8; 4];
    put_count(out, first_bytes(&mut folder, name, &mut buf));
    put_counts(out, [folder.faults(), folder.opens(), folder.reads()]);
    forget(folder);
}

/// What one folder gives of a file that it opens behind others.
fn put_next<R: Files + Drop>(folder: &mut StdFolder<R>, out: &mut String, name: &str) {
    let mut buf = [1u8; 4];
    put(
        out,
        if folder.open(name).is_ok() {
            "opened "
        } else {
            "failed "
        },
    );
    put_count(out, folder.read(&mut buf));
    put(out, " ");
    for byte in buf {
        put_number(out, &byte);
    }
}

/// Tells of the rows of `SYSTEM` that do not hold.
pub fn put_wrong_files<R: Files + Copy + Drop>(alloc: Global, wrong: &mut String, files: R) {
    for row in SYSTEM.lines() {
        let (name, told) = row.split_once(" => ").unwrap_or((row, "an answer"));
        let mut found = String::new(alloc);
        put_first_bytes(files, &mut found, name);
        put_if_wrong(wrong, row, told, found.as_str());
    }
}

/// Tells of the rows of `IN_TURN` that do not hold, and the counts at their end.
pub fn put_wrong_in_turn<R: Files + Drop>(alloc: Global, wrong: &mut String, files: R) {
    let mut folder = StdFolder::new(files);
    for row in IN_TURN.lines() {
        let (name, told) = row.split_once(" => ").unwrap_or((row, "an answer"));
        let mut found = String::new(alloc);
        put_next(&mut folder, &mut found, name);
        put_if_wrong(wrong, row, told, found.as_str());
    }
    put_counts(wrong, [folder.faults(), folder.opens(), folder.reads()]);
    forget(folder);
}
