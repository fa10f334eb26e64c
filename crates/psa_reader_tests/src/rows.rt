ghost use Rattle.std.specs.Prelude.{◌≤◌, All, length};
ghost use Rattle.psa_reader_tests.specs.Sizes.{IsSmall};
ghost use Rattle.psa_model.specs.declared.limits.TheConstants.{MAX_FILES};

use crate::documents::documents;
use crate::lines::put;
use crate::outlines::{put_draft, put_fault};
use psa_reader::{ReadError, read_model};
use psa_text::{Document, Items};
use std::alloc::Global;
use std::mem::forget;

/// The draft of trees as lines, one for each definition, or their first fault. It is not dropped: the
/// proof of a drop is long, and a test ends soon.
fn put_drafted(alloc: Global, out: &mut String, docs: &Items<Document>)
    requires few { length docs.now ≤ MAX_FILES }
    requires small { All IsSmall docs.now }
{
    match read_model(alloc, docs) {
        Ok(draft) => {
            put_draft(out, &draft);
            forget(draft);
        }
        Err(ReadError::Fault(fault)) => put_fault(out, &fault),
        Err(ReadError::Memory) => put(out, "no memory"),
    }
}

/// The first fault of shape of trees, or `none`.
fn put_first_fault(alloc: Global, out: &mut String, docs: &Items<Document>)
    requires few { length docs.now ≤ MAX_FILES }
    requires small { All IsSmall docs.now }
{
    match read_model(alloc, docs) {
        Ok(draft) => {
            put(out, "none");
            forget(draft);
        }
        Err(ReadError::Fault(fault)) => put_fault(out, &fault),
        Err(ReadError::Memory) => put(out, "no memory"),
    }
}

fn draft(alloc: Global, files: &str) -> String {
    let mut out = String::new(alloc);
    match documents(alloc, "", files, "") {
        Ok(docs) => put_drafted(alloc, &mut out, &docs),
        Err(_) => put(&mut out, "no tree"),
    }
    out
}

fn first_fault(alloc: Global, front: &str, files: &str, back: &str) -> String {
    let mut out = String::new(alloc);
    match documents(alloc, front, files, back) {
        Ok(docs) => put_first_fault(alloc, &mut out, &docs),
        Err(_) => put(&mut out, "no tree"),
    }
    out
}

/// The rows that do not hold, each with what was found. A line is
///
/// - `FRONT ... BACK`: what stands around the files of the rows below;
/// - `FILES => FAULT`: files, with `^` between them, `|` for the end of a line and `[3 PIECE]` for a
///   piece three times, and their first fault. Its place is left out where it is line 1 of file 0;
/// - `# WORDS`: what the rows below show.
pub fn wrong_rows(alloc: Global, rows: &str) -> String {
    let mut wrong = String::new(alloc);
    let mut front = "";
    let mut back = "";
    for row in rows.lines() {
        if let Some((before, behind)) = row.split_once(" ... ") {
            front = before;
            back = behind;
        } else if let Some((files, told)) = row.split_once(" => ") {
            let found = first_fault(alloc, front, files, back);
            put_if_wrong(&mut wrong, row, told, found.as_str());
        } else if !row.starts_with('#') {
            put(&mut wrong, row);
        }
    }
    wrong
}

fn put_if_wrong(wrong: &mut String, row: &str, told: &str, found: &str) {
    if found.strip_prefix("0:1: ").unwrap_or(found) != told {
        put(wrong, row);
        put(wrong, ", but found: ");
        put(wrong, found);
        put(wrong, "\n");
    }
}

/// What a model became, where it is not the draft that stands behind it.
pub fn wrong_draft(alloc: Global, case: &str) -> String {
    let (files, told) = case.split_once("\n=>\n").unwrap_or((case, "a draft"));
    let mut wrong = String::new(alloc);
    let found = draft(alloc, files);
    if found.as_str() != told {
        put(&mut wrong, found.as_str());
    }
    wrong
}
