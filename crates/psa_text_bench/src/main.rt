//! Reads a model from standard input as the scanner does, and says how many elements its root has, or its fault.
//! With the word `generate` and a number it writes a model of so many gates instead, to be read.
#![tactic(auto)]

use psa_text::{Scanner, TextError, TextFault, TextKind};
use std::io::{Read, Write};
use std::{env, io};

/// How many bytes are read at once.
const PIECE: usize = 65_536;

fn main(rt: HostRuntime) -> io::Result<()> {
    let mut words = Vec::new(rt.alloc());
    for word in env::args(&rt)?.skip(1) {
        words.push(word)?;
    }
    match words.as_slice() {
        [word, count] if word.as_str() == "generate" => match count.as_str().parse::<u32>() {
            Ok(count) => generate(&mut rt.stdout(), count),
            Err(_) => println!(rt; "no number of gates: {count}"),
        },
        _ => scan(&rt),
    }
}

/// A model of `count` gates, each with its event and some label text.
fn generate<W: Write>(out: &mut W, count: u32) -> io::Result<()> {
    out.write_all(b"<?xml version=\"1.0\"?>\n<opsa-mef name=\"generated\">\n")?;
    for _ in 0..count {
        out.write_all(
            b"  <define-gate name=\"Gate\">\n    <label>A gate of the generated model, with a few words of text.</label>\n    <and>\n      <basic-event name=\"PumpOne\"/>\n      <basic-event name=\"Valve&amp;Two\"/>\n    </and>\n  </define-gate>\n  <!-- between two gates -->\n",
        )?;
    }
    out.write_all(b"</opsa-mef>\n")
}

fn scan(rt: &HostRuntime) -> io::Result<()> {
    let alloc = rt.alloc();
    let mut input = rt.stdin();
    let mut piece = vec![in alloc; 0u8; PIECE]?;
    let mut scanner = Scanner::new(alloc);
    for _ in 0..u32::MAX {
        let count = input.read(piece.as_mut_slice())?;
        if count == 0 {
            break;
        }
        if let Err(error) = scanner.feed(piece.as_slice().split_at(count.min(PIECE)).0) {
            return tell(rt, error);
        }
    }
    match scanner.finish() {
        Ok(document) => {
            let count = document.root.children.len();
            println!(rt; "elements in the root: {count}")
        }
        Err(error) => tell(rt, error),
    }
}

fn tell(rt: &HostRuntime, error: TextError) -> io::Result<()> {
    match error {
        TextError::Memory => println!(rt; "out of memory"),
        TextError::Fault(TextFault { kind, line }) => {
            let kind = match kind {
                TextKind::LongFile => "long file",
                TextKind::BadMarkup => "bad markup",
                TextKind::LongToken => "long token",
                TextKind::BadNesting => "bad nesting",
            };
            println!(rt; "{line}: {kind}")
        }
    }
}
