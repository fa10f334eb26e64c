ghost use Rattle.std.specs.Prelude.{◌≡◌, IfOk};

use crate::lines::{put, put_bytes, put_number};
use crate::texts::put_text;
use psa_engine::{Status, analyse_words};
use psa_nodes::NodeTable;
use psa_ports::{BlockSink, MemoryFolder, MemorySink, Sink};
use psa_text::{Items, OutOfMemory, Text};
use std::alloc::Global;

/// How the files and the sinks of a run behave: how many bytes a read or a write takes at most (at least 1), which
/// calls fail, by their numbers from 0, how many bytes a report may have, and the size of the blocks through which it
/// goes, if it does.
#[derive(Clone, Copy)]
pub struct Devices<'a> {
    pub read: usize,
    pub failing_calls: &'a [u64],
    pub write: usize,
    pub failing_writes: &'a [u64],
    pub room: usize,
    pub block: Option<usize>,
    pub failing_lines: &'a [u64],
}

/// Devices that take thousands of bytes at once and never fail.
pub const SOUND: Devices = Devices {
    read: 4096,
    failing_calls: &[],
    write: 4096,
    failing_writes: &[],
    room: 8_000_000,
    block: None,
    failing_lines: &[],
};

/// Words as a command line has them.
fn owned(alloc: Global, words: &str) -> Result<Vec<String>, OutOfMemory> {
    let mut all = Vec::new(alloc);
    for word in words.split(' ') {
        if !word.is_empty() {
            all.push(String::from_str(alloc, word)?)?;
        }
    }
    Ok(all)
}

/// Adds a file: its name, and its text behind a blank, or on the lines below, which then have an end.
fn add_file(
    alloc: Global,
    files: &mut Items<(Text, Items<u8>)>,
    file: &str,
) -> Result<(), OutOfMemory> {
    let mut whole = String::new(alloc);
    let (name, text) = file.split_once([' ', '\n']).unwrap_or((file, ""));
    put_text(&mut whole, text);
    if !text.is_empty() && file.lines().next() == Some(name) {
        put(&mut whole, "\n");
    }
    let bytes = Items::from_slice(alloc, whole.as_bytes())?;
    files.push((Text::from_str(alloc, name)?, bytes))
}

/// A folder of these files, between which `\n@ ` stands.
fn folder(alloc: Global, files: &str, devices: &Devices) -> Result<MemoryFolder, OutOfMemory>
    ensures unopened { IfOk result (λ folder. folder.opens ≡ 0) }
{
    let mut texts = Items::new(alloc);
    for file in files.split("\n@ ") {
        add_file(alloc, &mut texts, file)?;
    }
    let failing = Items::from_slice(alloc, devices.failing_calls)?;
    Ok(MemoryFolder::new(texts, devices.read.max(1), failing))
}

/// A sink in memory as the devices say.
fn sink(alloc: Global, devices: &Devices) -> Result<MemorySink, OutOfMemory> {
    let failing = Items::from_slice(alloc, devices.failing_writes)?;
    MemorySink::new(alloc, devices.room, devices.write.max(1), failing)
}

/// Appends how a run ended: its status, how many nodes there were where they were too many, and whether no file was
/// opened; then what it told.
fn put_end(found: &mut String, status: Status, nodes: u64, opens: u64, told: &[u8]) {
    let _left_out = write!(found, " => {status:?}");
    if let Status::NodeLimit(_) = status {
        put(found, ", nodes: ");
        put_number(found, &nodes);
    }
    if opens == 0 {
        put(found, ", no file opened");
    }
    put(found, "\n");
    if !told.is_empty() {
        put(found, "! ");
        put_bytes(found, told);
    }
}

/// Appends how a run into this sink ended.
fn put_run<O: Sink>(
    found: &mut String,
    alloc: Global,
    words: &str,
    files: &str,
    devices: &Devices,
    out: &mut O,
) -> Result<(), OutOfMemory> {
    let words = owned(alloc, words)?;
    let mut folder = folder(alloc, files, devices)?;
    let failing = Items::from_slice(alloc, devices.failing_lines)?;
    let mut err = MemorySink::new(alloc, 4096, 4096, failing)?;
    let mut table = NodeTable::new(alloc);
    let status = analyse_words(alloc, &words, &mut folder, out, &mut err, &mut table);
    put_end(found, status, table.len(), folder.opens(), err.written());
    Ok(())
}

/// Appends how a run ended, and its report.
fn put_report(
    found: &mut String,
    alloc: Global,
    words: &str,
    files: &str,
    devices: &Devices,
) -> Result<(), OutOfMemory> {
    let mut out = sink(alloc, devices)?;
    put_run(found, alloc, words, files, devices, &mut out)?;
    put_bytes(found, out.written());
    Ok(())
}

/// Appends how a run ended whose report goes through blocks, and its report.
fn put_report_in_blocks(
    found: &mut String,
    alloc: Global,
    words: &str,
    files: &str,
    devices: &Devices,
    size: usize,
) -> Result<(), OutOfMemory> {
    let mut out = BlockSink::new(alloc, sink(alloc, devices)?, size.max(1))?;
    put_run(found, alloc, words, files, devices, &mut out)?;
    put_bytes(found, out.sink().written());
    Ok(())
}

/// What a run by these words over these files leaves: the words, how it ended, what it told and its report.
pub fn found(alloc: Global, words: &str, files: &str, devices: &Devices) -> String {
    let mut found = String::new(alloc);
    put(&mut found, words);
    let done = match devices.block {
        None => put_report(&mut found, alloc, words, files, devices),
        Some(size) => put_report_in_blocks(&mut found, alloc, words, files, devices, size),
    };
    if done.is_err() {
        put(&mut found, "no memory");
    }
    found
}
