ghost use Rattle.std.specs.Prelude.{◌≤◌, All, length};
ghost use Rattle.psa_model.specs.Drafts.{IsDraft};
ghost use Rattle.psa_names_tests.specs.Sizes.{IsSmall};
ghost use Rattle.psa_model.specs.declared.limits.TheConstants.{MAX_FILES};

use crate::documents::documents;
use crate::lines::put;
use crate::outlines::{put_fault, put_model};
use psa_checks::{CheckError, resolve};
use psa_model::Draft;
use psa_reader::read_model;
use psa_text::{Document, Items};
use std::alloc::Global;
use std::mem::forget;

/// The model of a draft as lines, or its first fault of names. It is not dropped: the proof of a drop is
/// long, and a test ends soon.
fn put_resolved(alloc: Global, out: &mut String, draft: &Draft)
    requires { IsDraft draft.now }
{
    match resolve(alloc, draft) {
        Ok(model) => {
            put_model(out, &model);
            forget(model);
        }
        Err(CheckError::Fault(fault)) => put_fault(out, &fault),
        Err(CheckError::Memory) => put(out, "no memory"),
    }
}

fn put_read(alloc: Global, out: &mut String, docs: &Items<Document>)
    requires few { length docs.now ≤ MAX_FILES }
    requires small { All IsSmall docs.now }
{
    match read_model(alloc, docs) {
        Ok(draft) => {
            put_resolved(alloc, out, &draft);
            forget(draft);
        }
        Err(_) => put(out, "no draft"),
    }
}

/// The model of files as lines, or their first fault of names.
pub fn model(alloc: Global, front: &str, files: &str, back: &str) -> String {
    let mut out = String::new(alloc);
    match documents(alloc, front, files, back) {
        Ok(docs) => put_read(alloc, &mut out, &docs),
        Err(_) => put(&mut out, "no tree"),
    }
    out
}

/// The rows that do not hold, each with what was found. A line is
///
/// - `FRONT ... BACK`: what stands around the files of the rows below;
/// - `FILES => FAULT`: files, with `^` between them and `|` for the end of a line, and their first
///   fault of names, or `none`. Its place is left out where it is line 1 of file 0;
/// - `# WORDS`: what the rows below show.
pub fn wrong_rows(alloc: Global, rows: &str) -> String {
    let mut wrong = String::new(alloc);
    let mut front = "";
    let mut back = "";
    for row in rows.lines() {
        if let Some((before, behind)) = row.split_once(" ... ") {
            front = before;
            back = behind;
        } else if let Some((files, told)) = row.split_once(" => ") {
            let found = model(alloc, front, files, back);
            put_if_wrong(&mut wrong, row, told, found.as_str());
        } else if !row.starts_with('#') {
            put(&mut wrong, row);
        }
    }
    wrong
}

fn put_if_wrong(wrong: &mut String, row: &str, told: &str, found: &str) {
    if !is_told(told, found) {
        put(wrong, row);
        put(wrong, ", but found: ");
        put(wrong, found);
        put(wrong, "\n");
    }
}

/// Whether what was found is what a row tells: the lines of a model have no fault.
fn is_told(told: &str, found: &str) -> bool {
    if told == "none" {
        found.is_empty() || found.ends_with('\n')
    } else {
        found.strip_prefix("0:1: ").unwrap_or(found) == told
    }
}

/// What files became, where it is not what stands behind them.
pub fn wrong_model(alloc: Global, case: &str) -> String {
    let (files, told) = case.split_once("\n=>\n").unwrap_or((case, "a model"));
    let mut wrong = String::new(alloc);
    let found = model(alloc, "", files, "");
    if found.as_str() != told {
        put(&mut wrong, found.as_str());
    }
    wrong
}
