ghost use Rattle.std.specs.Prelude.{◌≡◌, ◌<◌, ◌≤◌, ◌+◌, ◌^◌, List, ℕ, Option, Some, true, not, is_ok, IfOk, OnOk, OnErr, drop, length};
ghost use Rattle.std.specs.Io.{ReadsAtMost};
ghost use Rattle.std.specs.Io.KnownBytes.{ReadConsumes, IsAtEnd};
ghost use Rattle.std.specs.Option.{option_map};
ghost use Rattle.psa_ports.specs.Counts.{HasCause, one_more, is_failing};
ghost use Rattle.psa_ports.specs.Folder.{Opens, text_of};
ghost use Rattle.psa_ports.specs.MemoryFolder.{new_folder, bytes_at, can_open, after_open, read_count, after_read};

use crate::{Failed, Folder};
use psa_text::{Items, Text};
use std::marker::Model;

/// A folder in memory, which gives its files in pieces and fails where it is told to.
///
/// Its calls of `open` and `read` together are numbered from 0, and the number is held at 2^64 - 1.
/// A call fails whose number is in `failing`, and an open of a name that no file has; no other call
/// fails. Each failed call, and nothing else, raises its count of faults. It allows every name, and
/// takes no memory.
#[derive(Drop)]
pub struct MemoryFolder {
    texts: Items<(Text, Items<u8>)>,
    piece: usize,
    failing: Items<u64>,
    opened: Option<usize>,
    at: usize,
    calls: u64,
    faults: u64,
    opens: u64,
    reads: u64,
}

impl Model for MemoryFolder {
    ghost use Rattle.std.specs.Prelude.{◌<◌, ◌≤◌, drop, length};
    ghost use Rattle.psa_ports.specs.MemoryFolder.{FolderState, bytes_at};

    ghost Value = { FolderState };

    ghost view = { λ f. record {
      texts = f.texts;
      piece = f.piece;
      failing = f.failing;
      rest = drop f.at (bytes_at f.texts f.opened);
      calls = f.calls;
      faults = f.faults;
      opens = f.opens;
      reads = f.reads;
    } };

    ghost invariant = { λ f. (0 < f.piece) × (f.at ≤ length (bytes_at f.texts f.opened)) };
}

impl MemoryFolder {
    /// A folder with these files, each a name and its bytes, in which nothing is opened and every
    /// count is 0. Of two files with one name the first is opened. One read gives at most `piece`
    /// bytes, which is at least 1; `failing` has the numbers of the calls that fail.
    pub fn new(texts: Items<(Text, Items<u8>)>, piece: usize, failing: Items<u64>) -> MemoryFolder
        requires { 0 < piece }
        ensures { result ≡ new_folder texts piece failing }
    {
        MemoryFolder {
            texts,
            piece,
            failing,
            opened: None,
            at: 0,
            calls: 0,
            faults: 0,
            opens: 0,
            reads: 0,
        }
    }

    /// How many calls failed, held at 2^64 - 1.
    pub fn faults(&self) -> u64
        ensures { result ≡ self.now.faults }
    {
        self.faults
    }

    /// How many calls of `open` there were, held at 2^64 - 1.
    pub fn opens(&self) -> u64
        ensures { result ≡ self.now.opens }
    {
        self.opens
    }

    /// How many calls of `read` there were, held at 2^64 - 1.
    pub fn reads(&self) -> u64
        ensures { result ≡ self.now.reads }
    {
        self.reads
    }
}

impl Folder for MemoryFolder {
    ghost texts = { λ f. Some f.texts };

    ghost rest = { λ f. Some f.rest };

    ghost faults = { λ f. f.faults };

    ghost opens = { λ f. f.opens };

    ghost reads = { λ f. f.reads };

    ghost allows = { λ _ _. true };

    /// Opens the first file with this name. Refuses exactly where this call is one of those that
    /// fail or no file has the name; nothing is opened then.
    fn open(&mut self, name: &str) -> Result<(), Failed>
        ensures opened { OnOk result (Opens (Some self.old.texts) name.now (Some self.new.rest)) }
        ensures shut { OnErr result (IsAtEnd (Some self.new.rest)) }
        ensures cause { HasCause self.old.faults self.new.faults result }
        ensures opens { self.new.opens ≡ one_more self.old.opens }
        ensures reads { self.new.reads ≡ self.old.reads }
        ensures texts { Some self.new.texts ≡ Some self.old.texts }

        ensures fails { is_ok result ≡ can_open self.old name.now }
        ensures exact { self.new ≡ after_open self.old name.now }
    {
        let failing = self.failing.as_slice().contains(&self.calls);
        self.calls = self.calls.saturating_add(1);
        self.opens = self.opens.saturating_add(1);
        self.opened = None;
        self.at = 0;
        if failing {
            self.faults = self.faults.saturating_add(1);
            return Err(Failed);
        }
        self.opened = place_of(self.texts.as_slice(), name);
        match self.opened {
            Some(_) => Ok(()),
            None => {
                self.faults = self.faults.saturating_add(1);
                Err(Failed)
            }
        }
    }

    /// Gives as many bytes as `buf`, the piece and what is left allow. Refuses exactly where this
    /// call is one of those that fail; nothing is moved then. Where nothing is open it gives none.
    fn read(&mut self, buf: &mut [u8]) -> Result<usize, Failed>
        requires { 0 < length buf.old }

        ensures bound { ReadsAtMost result buf.new }
        ensures bytes { ReadConsumes (Some self.old.rest) (Some self.new.rest) result buf.new }
        ensures cause { HasCause self.old.faults self.new.faults result }
        ensures reads { self.new.reads ≡ one_more self.old.reads }
        ensures opens { self.new.opens ≡ self.old.opens }
        ensures texts { Some self.new.texts ≡ Some self.old.texts }

        ensures fails { is_ok result ≡ not (is_failing self.old.failing self.old.calls) }
        ensures count { IfOk result (λ count. count ≡ read_count self.old (length buf.old)) }
        ensures exact { self.new ≡ after_read self.old (length buf.old) }
    {
        let failing = self.failing.as_slice().contains(&self.calls);
        self.calls = self.calls.saturating_add(1);
        self.reads = self.reads.saturating_add(1);
        if failing {
            self.faults = self.faults.saturating_add(1);
            return Err(Failed);
        }
        let rest = rest_of(self.texts.as_slice(), self.opened, self.at);
        let count = rest.len().min(buf.len()).min(self.piece);
        buf[..count].copy_from_slice(rest.split_at(count).0);
        self.at += count;
        Ok(count)
    }
}

// The place of the first file with this name.
fn place_of(texts: &[(Text, Items<u8>)], name: &str) -> Option<usize>
    ensures { text_of name.now texts.now
        ≡ option_map (λ place. bytes_at texts.now (Some place)) result }
{
    for (place, file) in texts.iter().enumerate() {
        if file.0.as_str() == name {
            return Some(place);
        }
    }
    None
}

// What is left of the file at the place `opened`, past its first `at` bytes.
fn rest_of(texts: &[(Text, Items<u8>)], opened: Option<usize>, at: usize) -> &[u8]
    requires { at ≤ length (bytes_at texts.now opened) }
    ensures rest { result.now ≡ drop at (bytes_at texts.now opened) }
    ensures fits { at + length result.now < 2 ^ 64 }
{
    match opened.and_then(|place| texts.get(place)) {
        Some(file) => file.1.as_slice().split_at(at).1,
        None => &[],
    }
}
