ghost use Rattle.std.specs.Prelude.{◌≤◌, All, IfOk, OnOk, length};
ghost use Rattle.psa_names_tests.specs.Sizes.{IsSmall};
ghost use Rattle.psa_model.specs.declared.limits.TheConstants.{MAX_FILES};

use crate::lines::put;
use psa_model::MAX_FILES;
use psa_text::{Document, Items, Scanner, TextError};
use std::alloc::Global;

/// A stroke stands for the end of a line.
fn put_piece(out: &mut String, piece: &str) {
    for line in piece.split_inclusive('|') {
        match line.strip_suffix('|') {
            Some(line) => {
                put(out, line);
                put(out, "\n");
            }
            None => put(out, line),
        }
    }
}

/// `3 PIECE]REST` is the piece three times and the rest. What has no bracket is a rest alone.
fn put_part(out: &mut String, part: &str) {
    let (repeated, rest) = part.split_once(']').unwrap_or(("", part));
    let (count, piece) = repeated.split_once(' ').unwrap_or(("", ""));
    for _ in 0..count.parse::<u32>().unwrap_or(0) {
        put_piece(out, piece);
    }
    put_piece(out, rest);
}

/// The text of a file of a row, with what stands around it.
fn text_of(alloc: Global, front: &str, file: &str, back: &str) -> String {
    let mut text = String::new(alloc);
    put(&mut text, front);
    for part in file.split('[') {
        put_part(&mut text, part);
    }
    put(&mut text, back);
    text
}

/// The tree of a text.
fn document(alloc: Global, text: &str) -> Result<Document, TextError>
    ensures { IfOk result IsSmall }
{
    let mut scanner = Scanner::new(alloc);
    match scanner.feed(text.as_bytes()) {
        Ok(()) => scanner.finish(),
        Err(error) => Err(error),
    }
}

/// The tree of one more text, where there are not too many; an empty text is none.
fn add(docs: &mut Items<Document>, alloc: Global, text: &str) -> Result<(), TextError>
    requires few_before { length docs.old ≤ MAX_FILES }
    requires small_before { All IsSmall docs.old }
    ensures few { OnOk result (length docs.new ≤ MAX_FILES) }
    ensures small { OnOk result (All IsSmall docs.new) }
{
    if text.is_empty() {
        return Ok(());
    }
    let document = document(alloc, text)?;
    if docs.len() >= MAX_FILES || docs.push(document).is_err() {
        return Err(TextError::Memory);
    }
    Ok(())
}

/// The trees of files, between which `^` stands, each with what stands around it.
pub fn documents(
    alloc: Global,
    front: &str,
    files: &str,
    back: &str,
) -> Result<Items<Document>, TextError>
    ensures few { IfOk result (λ docs. length docs ≤ MAX_FILES) }
    ensures small { IfOk result (All IsSmall) }
{
    let mut docs = Items::new(alloc);
    for file in files.split('^') {
        let text = text_of(alloc, front, file, back);
        add(&mut docs, alloc, text.as_str())?;
    }
    Ok(docs)
}
