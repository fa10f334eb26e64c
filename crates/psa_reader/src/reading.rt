ghost use Rattle.std.specs.Prelude.{◌≡◌, ◌≤◌, All, IfErr, IfOk, None, OnOk, Some, length, map};
ghost use Rattle.psa_elements.specs.DraftReading.{draft_of};
ghost use Rattle.psa_elements.specs.ShapeFaults.{shape_fault};
ghost use Rattle.psa_model.specs.Drafts.{IsDraft};
ghost use Rattle.psa_shape.specs.FoundFaults.{Tells};
ghost use Rattle.psa_text.specs.declared.limits.TheConstants.{MAX_DEPTH, MAX_ELEMENTS};
ghost use Rattle.psa_text.specs.Tree.{depth};
ghost use Rattle.psa_text.specs.TreeSize.{elements_in};
ghost use Rattle.psa_model.specs.declared.limits.TheConstants.{MAX_FILES};

use crate::ReadError;
use psa_drafts::draft_of_documents;
use psa_model::Draft;
use psa_shape::check_shape;
use psa_text::{Document, Items, OutOfMemory};
use std::alloc::Global;

/// The draft of a model's files, given as their trees in the order of the files: the definitions that
/// their elements say, in document order, with the promise of a draft (`IsDraft`). At most
/// `MAX_FILES` files are read, each of at most `MAX_ELEMENTS` elements and at most `MAX_DEPTH` deep.
///
/// `Fault` is answered exactly where an element has a fault of shape, then the first, with the file
/// by its place, from 0, and the line of the element, from 1. `Memory` is answered only where memory
/// is wanted. (The names of the elements are those of the Open-PSA Model Exchange Format 2.0d; the
/// profile and the order of the checks are this project's own.)
pub fn read_model(alloc: Global, docs: &Items<Document>) -> Result<Draft, ReadError>
    requires few { length docs.now ≤ MAX_FILES }
    requires small { All (λ doc. elements_in doc.root ≤ MAX_ELEMENTS) docs.now }
    requires flat { All (λ doc. depth doc.root ≤ MAX_DEPTH) docs.now }
    ensures sound { OnOk result (shape_fault (map (λ doc. doc.root) docs.now) ≡ None) }
    ensures draft { IfOk result (λ draft. draft ≡ draft_of (map (λ doc. doc.root) docs.now)) }
    ensures promised { IfOk result (λ draft. IsDraft draft) }
    ensures fault { IfErr result
        (λ e. Tells e (λ f. shape_fault (map (λ doc. doc.root) docs.now) ≡ Some f)) }
{
    let docs = docs.as_slice();
    check_shape(alloc, docs)?;
    Ok(promised_draft(alloc, docs)?)
}

/// The draft of documents without a fault of shape, with its promise.
fn promised_draft(alloc: Global, docs: &[Document]) -> Result<Draft, OutOfMemory>
    requires shaped { shape_fault (map (λ doc. doc.root) docs.now) ≡ None }
    requires few { length docs.now ≤ MAX_FILES }
    requires small { All (λ doc. elements_in doc.root ≤ MAX_ELEMENTS) docs.now }
    requires flat { All (λ doc. depth doc.root ≤ MAX_DEPTH) docs.now }
    ensures draft { IfOk result (λ draft. draft ≡ draft_of (map (λ doc. doc.root) docs.now)) }
    ensures promised { IfOk result (λ draft. IsDraft draft) }
{
    draft_of_documents(alloc, docs)
}
