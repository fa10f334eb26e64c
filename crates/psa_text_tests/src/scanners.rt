use crate::lines::{put, put_number};
use crate::models::MODELS;
use crate::notation::bytes_of;
use crate::outlines::{put_end, put_error};
use crate::texts::{FAULTS, FILES, LIMITS, TREES};
use psa_text::Scanner;
use std::alloc::Global;

/// How many bytes the pieces have in which a text comes.
const SIZES: [usize; 4] = [1, 2, 3, 64];

/// Appends the outline of the tree of a text that comes in pieces of so many bytes, or its fault. Gives the
/// number of the piece that has the fault, from 1, or 0.
fn put_read(alloc: Global, out: &mut String, bytes: &[u8], size: usize) -> usize {
    let mut scanner = Scanner::new(alloc);
    let mut number = 0usize;
    for piece in bytes.chunks(size.max(1)) {
        number = number.saturating_add(1);
        if let Err(error) = scanner.feed(piece) {
            put_error(out, error);
            if scanner.feed(b"<") != Err(error) {
                put(out, ", then another");
            }
            return number;
        }
    }
    put_end(out, &scanner.finish());
    0
}

/// Appends the outline of the tree of a text that comes in two pieces, or its faults.
fn put_halves(alloc: Global, out: &mut String, first: &[u8], second: &[u8]) {
    let mut scanner = Scanner::new(alloc);
    for half in [first, second] {
        if let Err(error) = scanner.feed(half) {
            put_error(out, error);
        }
    }
    put_end(out, &scanner.finish());
}

/// Appends a row, with what was found in its place.
fn put_wrong(wrong: &mut String, row: &str, found: &str, size: usize) {
    put(wrong, row);
    put(wrong, ", but by ");
    put_number(wrong, &size);
    put(wrong, ": ");
    put(wrong, found);
    put(wrong, "\n");
}

/// Tells of a row whose text is read otherwise in pieces of one of the sizes.
fn put_if_wrong(
    alloc: Global,
    wrong: &mut String,
    row: &str,
    text: &[u8],
    told: &[u8],
    byte: usize,
) {
    for size in SIZES {
        let mut found = String::new(alloc);
        let piece = put_read(alloc, &mut found, text, size);
        if found.as_bytes() != told || piece != byte.div_ceil(size) {
            put_wrong(wrong, row, found.as_str(), size);
        }
    }
}

/// The rows that do not hold, each with what was found. A row is a text and its tree, or a text, its fault,
/// and which of its bytes decides it, counted from 1, where that is not its end.
fn wrong_rows(alloc: Global, rows: &str) -> String {
    let mut wrong = String::new(alloc);
    for row in rows.lines() {
        let (text, wanted) = row.split_once(" => ").unwrap_or((row, "a tree or a fault"));
        let (told, byte) = wanted.split_once(" at ").unwrap_or((wanted, "0"));
        let byte = byte.parse::<usize>().unwrap_or(usize::MAX);
        let text = bytes_of(alloc, text);
        let told = bytes_of(alloc, told);
        put_if_wrong(
            alloc,
            &mut wrong,
            row,
            text.as_slice(),
            told.as_slice(),
            byte,
        );
    }
    wrong
}

#[test]
fn reads_small_texts(rt: HostRuntime) {
    for rows in [TREES, FAULTS, LIMITS] {
        let wrong = wrong_rows(rt.alloc(), rows);
        assert_eq!(rt; wrong.as_str(), "");
    }
}

/// Tells of a text that is read otherwise when it comes in two pieces, cut at one of its places.
fn put_if_cut_wrong(alloc: Global, wrong: &mut String, text: &str, told: &str) {
    for place in 0..=text.len() {
        let mut found = String::new(alloc);
        let (first, second) = text.as_bytes().split_at(place);
        put_halves(alloc, &mut found, first, second);
        if found.as_str() != told {
            put_wrong(wrong, told, found.as_str(), place);
        }
    }
}

/// What is read otherwise of a model, in pieces of each size and cut anywhere.
fn wrong_model(alloc: Global, model: &str) -> String {
    let (text, told) = model.split_once("\n=>\n").unwrap_or((model, "a tree"));
    let mut wrong = String::new(alloc);
    put_if_wrong(alloc, &mut wrong, told, text.as_bytes(), told.as_bytes(), 0);
    put_if_cut_wrong(alloc, &mut wrong, text, told);
    wrong
}

#[test]
fn reads_models(rt: HostRuntime) {
    for model in MODELS {
        let wrong = wrong_model(rt.alloc(), model);
        assert_eq!(rt; wrong.as_str(), "");
    }
}

/// The fault, or `none`, of a text of `front`, `count` times `middle`, and `end`, fed piece by piece.
fn fed(alloc: Global, front: &[u8], count: u32, middle: &[u8], end: &[u8]) -> String {
    let mut out = String::new(alloc);
    let mut scanner = Scanner::new(alloc);
    let mut result = scanner.feed(front);
    for _ in 0..count {
        if result.is_ok() {
            result = scanner.feed(middle);
        }
    }
    if result.is_ok() {
        result = scanner.feed(end);
    }
    match result {
        Ok(()) => put(&mut out, "none"),
        Err(error) => put_error(&mut out, error),
    }
    out
}

/// What is found in a file `FRONT ... COUNT ... MIDDLE ... END`.
fn found_in(alloc: Global, file: &str) -> String {
    let (front, rest) = file.split_once(" ... ").unwrap_or(("", file));
    let (count, rest) = rest.split_once(" ... ").unwrap_or(("0", rest));
    let (middle, end) = rest.split_once(" ... ").unwrap_or(("", rest));
    let front = bytes_of(alloc, front);
    let middle = bytes_of(alloc, middle);
    let end = bytes_of(alloc, end);
    let count = count.parse::<u32>().unwrap_or(0);
    fed(
        alloc,
        front.as_slice(),
        count,
        middle.as_slice(),
        end.as_slice(),
    )
}

/// The rows that do not hold, each with what was found. A row is a front, how often the middle stands, the
/// middle and the end of a file, and its fault or `none`.
fn wrong_files(alloc: Global, rows: &str) -> String {
    let mut wrong = String::new(alloc);
    for row in rows.lines() {
        let (file, told) = row.split_once(" => ").unwrap_or((row, "a fault or none"));
        let found = found_in(alloc, file);
        if found.as_str() != told {
            put_wrong(&mut wrong, row, found.as_str(), 0);
        }
    }
    wrong
}

#[test]
fn keeps_the_limits_of_a_file(rt: HostRuntime) {
    let wrong = wrong_files(rt.alloc(), FILES);
    assert_eq!(rt; wrong.as_str(), "");
}
