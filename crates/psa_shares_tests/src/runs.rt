ghost use Rattle.std.specs.Prelude.{◌≡◌, IfOk};

use crate::lines::{put, put_bytes};
use crate::texts::put_text;
use psa_ports::{MemoryFolder, MemorySink};
use psa_shares::share_words;
use psa_text::{Items, OutOfMemory, Text};
use std::alloc::Global;

/// How the files and the sink of a run behave: how many bytes a read or a write takes at most (at least 1), which calls
/// of the folder and which writes fail, by their numbers from 0, and how many bytes a text may have.
#[derive(Clone, Copy)]
pub struct Devices<'a> {
    pub read: usize,
    pub failing_calls: &'a [u64],
    pub write: usize,
    pub failing_writes: &'a [u64],
    pub room: usize,
}

/// Devices that take thousands of bytes at once and never fail.
pub const SOUND: Devices = Devices {
    read: 4096,
    failing_calls: &[],
    write: 4096,
    failing_writes: &[],
    room: 8_000_000,
};

/// Words as a command line has them.
fn owned(alloc: Global, words: &str) -> Result<Vec<String>, OutOfMemory> {
    let mut all = Vec::new(alloc);
    for word in words.split(' ') {
        if !word.is_empty() {
            all.push(String::from_str(alloc, word)?)?;
        }
    }
    Ok(all)
}

/// Adds a file: its name, and its text behind a blank, or on the lines below, which then have an end.
fn add_file(
    alloc: Global,
    files: &mut Items<(Text, Items<u8>)>,
    file: &str,
) -> Result<(), OutOfMemory> {
    let mut whole = String::new(alloc);
    let (name, text) = file.split_once([' ', '\n']).unwrap_or((file, ""));
    put_text(&mut whole, text);
    if !text.is_empty() && file.lines().next() == Some(name) {
        put(&mut whole, "\n");
    }
    let bytes = Items::from_slice(alloc, whole.as_bytes())?;
    files.push((Text::from_str(alloc, name)?, bytes))
}

/// A folder of these files, between which `\n@ ` stands.
fn folder(alloc: Global, files: &str, devices: &Devices) -> Result<MemoryFolder, OutOfMemory>
    ensures unopened { IfOk result (λ folder. folder.opens ≡ 0) }
{
    let mut texts = Items::new(alloc);
    for file in files.split("\n@ ") {
        add_file(alloc, &mut texts, file)?;
    }
    let failing = Items::from_slice(alloc, devices.failing_calls)?;
    Ok(MemoryFolder::new(texts, devices.read.max(1), failing))
}

/// A sink in memory as the devices say.
fn sink(alloc: Global, devices: &Devices) -> Result<MemorySink, OutOfMemory> {
    let failing = Items::from_slice(alloc, devices.failing_writes)?;
    MemorySink::new(alloc, devices.room, devices.write.max(1), failing)
}

/// Appends how a run ended, whether no file was opened, what it told and its text.
fn put_run(
    found: &mut String,
    alloc: Global,
    words: &str,
    files: &str,
    devices: &Devices,
) -> Result<(), OutOfMemory> {
    let words = owned(alloc, words)?;
    let mut folder = folder(alloc, files, devices)?;
    let mut out = sink(alloc, devices)?;
    let mut err = MemorySink::new(alloc, 4096, 4096, Items::new(alloc))?;
    let status = share_words(alloc, &words, &mut folder, &mut out, &mut err);
    let _left_out = write!(found, " => {status:?}");
    if folder.opens() == 0 {
        put(found, ", no file opened");
    }
    put(found, "\n");
    if !err.written().is_empty() {
        put(found, "! ");
        put_bytes(found, err.written());
    }
    put_bytes(found, out.written());
    Ok(())
}

/// What a run by these words over these files leaves: the words, how it ended, what it told and its text.
pub fn found(alloc: Global, words: &str, files: &str, devices: &Devices) -> String {
    let mut found = String::new(alloc);
    put(&mut found, words);
    if put_run(&mut found, alloc, words, files, devices).is_err() {
        put(&mut found, "no memory");
    }
    found
}
