ghost use Rattle.std.specs.Prelude.{◌<◌, ◌≤◌, IsTrue};

use crate::lines::{put, put_number};
use psa_ports::{Folder, MemoryFolder, MemorySink, put as put_all};
use psa_text::{Items, Text};
use std::alloc::Global;

/// The numbers between commas; none for `-`.
fn numbers_of(alloc: Global, text: &str) -> Items<u64> {
    let mut numbers = Items::new(alloc);
    for word in text.split(',') {
        if let Ok(number) = word.parse::<u64>() {
            let _left_out = numbers.push(number);
        }
    }
    numbers
}

/// The number in a text, at least 1.
fn from_one(text: &str) -> usize
    ensures { 0 < result }
{
    text.parse::<usize>().unwrap_or(1).max(1)
}

/// Adds a file to those of a folder.
fn add(alloc: Global, files: &mut Items<(Text, Items<u8>)>, name: &str, bytes: &[u8]) {
    if let (Ok(name), Ok(bytes)) = (Text::from_str(alloc, name), Items::from_slice(alloc, bytes)) {
        let _left_out = files.push((name, bytes));
    }
}

/// A folder of four files, two of which have one name.
fn folder_of(alloc: Global, piece: usize, failing: Items<u64>) -> MemoryFolder
    requires { 0 < piece }
{
    let mut files = Items::new(alloc);
    add(alloc, &mut files, "empty", b"");
    add(alloc, &mut files, "model", b"abcdefg");
    add(alloc, &mut files, "model", b"another");
    add(alloc, &mut files, "other", b"xyz");
    MemoryFolder::new(files, piece, failing)
}

/// Appends the opened file, read to its end, past reads that fail.
fn put_rest<F: Folder>(out: &mut String, folder: &mut F, room: usize)
    requires least { 0 < room }
    requires most { room ≤ 64 }
{
    let mut buf = [0u8; 64];
    for _ in 0..100 {
        match folder.read(&mut buf[..room]) {
            Ok(0) => break,
            Ok(count) => put(out, str::from_utf8(buf.split_at(count).0).unwrap_or("?")),
            Err(_) => {}
        }
    }
}

/// Opens a file and appends its bytes between quotes, or `none`.
fn put_file<F: Folder>(out: &mut String, folder: &mut F, name: &str, room: usize)
    requires allowed { IsTrue (F.allows folder.old name.now) }
    requires least { 0 < room }
    requires most { room ≤ 64 }
{
    if folder.open(name).is_err() {
        put(out, "none");
        return;
    }
    put(out, "'");
    put_rest(out, folder, room);
    put(out, "'");
}

/// Appends numbers, each behind a blank.
pub fn put_counts(out: &mut String, counts: [u64; 3]) {
    for count in counts {
        put(out, " ");
        put_number(out, &count);
    }
}

/// What a folder in memory gives of a file: `NAME PIECE ROOM FAILING`.
pub fn put_gathered(alloc: Global, out: &mut String, call: &str) {
    let (name, rest) = call.split_once(' ').unwrap_or((call, ""));
    let (piece, rest) = rest.split_once(' ').unwrap_or((rest, ""));
    let (room, failing) = rest.split_once(' ').unwrap_or((rest, ""));
    let mut folder = folder_of(alloc, from_one(piece), numbers_of(alloc, failing));
    put_file(out, &mut folder, name, from_one(room).min(64));
    put_counts(out, [folder.faults(), folder.opens(), folder.reads()]);
}

/// Writes two texts and appends what was written, the count of faults and how many of the two failed.
fn put_written(out: &mut String, mut sink: MemorySink) {
    let first = put_all(&mut sink, b"heading, ").is_err();
    let second = put_all(&mut sink, b"rows").is_err();
    put(out, "'");
    put(out, str::from_utf8(sink.written()).unwrap_or("?"));
    put(out, "' ");
    put_number(out, &sink.faults());
    put(out, " ");
    put_number(out, &(u64::from(first) + u64::from(second)));
}

/// What a sink in memory takes: `ROOM PIECE FAILING`.
pub fn put_taken(alloc: Global, out: &mut String, call: &str) {
    let (room, rest) = call.split_once(' ').unwrap_or((call, ""));
    let (piece, failing) = rest.split_once(' ').unwrap_or((rest, ""));
    let room = room.parse::<usize>().unwrap_or(0);
    match MemorySink::new(alloc, room, from_one(piece), numbers_of(alloc, failing)) {
        Ok(sink) => put_written(out, sink),
        Err(_) => put(out, "no memory"),
    }
}
