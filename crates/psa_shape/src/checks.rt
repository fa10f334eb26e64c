ghost use Rattle.std.specs.Prelude.{◌≡◌, ◌≤◌, ◌^◌, All, IfErr, None, OnOk, Some};
ghost use Rattle.std.specs.Prelude.{length, map};
ghost use Rattle.psa_elements.specs.ShapeFaults.{
  element_faults,
  root_faults,
  shape_fault,
  shape_faults,
};
ghost use Rattle.psa_text.specs.Tree.{depth};
ghost use Rattle.psa_text.specs.declared.limits.TheConstants.{MAX_DEPTH};
ghost use Rattle.psa_shape.specs.FoundFaults.{Finds, Tells};

use crate::elements::{check_element, unknown};
use crate::rows::Row;
use psa_elements::ReadError;
use psa_text::{Document, Element};
use std::alloc::Global;

/// The first fault of shape of some documents, in the order of the checks: each element by its row
/// of the element table, first its tag, then its attributes as they stand, those that are missing,
/// their values, its children one after another, and last their number and order. (The names are
/// those of the Open-PSA Model Exchange Format 2.0d; the profile and the order of the checks are
/// this project's own.)
///
/// `Fault` is answered exactly where there is one; the file is the place of the document, from 0,
/// the line that of the element. `Memory` is answered where the name that a fault prints finds no
/// memory, and only there: nothing else is allocated.
///
/// The calls nest as deep as the elements do, at most `MAX_DEPTH` deep.
pub fn check_shape(alloc: Global, docs: &[Document]) -> Result<(), ReadError>
    requires deep { All (λ doc. depth doc.root ≤ MAX_DEPTH) docs.now }
    requires few { length docs.now ≤ 2 ^ 32 }
    ensures sound { OnOk result (shape_fault (map (λ doc. doc.root) docs.now) ≡ None) }
    ensures fault { IfErr result
        (λ e. Tells e (λ f. shape_fault (map (λ doc. doc.root) docs.now) ≡ Some f)) }
{
    check_roots(alloc, docs)
}

/// The first fault of the roots, one after another.
fn check_roots(alloc: Global, docs: &[Document]) -> Result<(), ReadError>
    requires { length docs.now ≤ 2 ^ 32 }
    ensures { Finds (shape_faults (map (λ doc. doc.root) docs.now)) result }
{
    for (file, doc) in docs.iter().enumerate() {
        check_root(alloc, file as u32, &doc.root)?;
    }
    Ok(())
}

/// The first fault of a root, which is an `opsa-mef`.
fn check_root(alloc: Global, file: u32, root: &Element) -> Result<(), ReadError>
    ensures { Finds (root_faults file (element_faults file root.now)) result }
{
    match root.tag.as_str() {
        "opsa-mef" => check_element(alloc, file, Row::OpsaMef, root),
        _ => Err(unknown(alloc, file, root)),
    }
}
