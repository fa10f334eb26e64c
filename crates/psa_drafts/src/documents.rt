ghost use Rattle.std.specs.Prelude.{◌≡◌, ◌≤◌, ◌+◌, ◌<◌, ◌^◌, ◌++◌, None, All, IfOk, OnOk, length, map, true};
ghost use Rattle.std.specs.List.{flat_map, enumerate_from, list_all};
ghost use Rattle.psa_text.specs.Tree.{depth};
ghost use Rattle.psa_text.specs.TreeSize.{elements_in};
ghost use Rattle.psa_text.specs.declared.tree.Element.TheViews.{out-Element};
ghost use Rattle.psa_elements.specs.DraftReading.{draft_of, file_definitions};
ghost use Rattle.psa_elements.specs.ShapeFaults.{shape_fault};
ghost use Rattle.psa_draft_parts.specs.Sayings.{are_short, size_of};

use crate::definitions::definitions_in;
use psa_draft_parts::{Around, Inside, Reader};
use psa_model::{Draft, DraftDefinition};
use psa_text::limits::{MAX_DEPTH, MAX_ELEMENTS};
use psa_text::{Document, Element, Items, OutOfMemory};
use std::alloc::Global;

/// The draft of what documents without a fault of shape say: the definitions of all of them in document
/// order. One pass over the elements, a recursion at most `MAX_DEPTH` deep; what is allocated is what
/// the draft keeps, and for each container the list of names around it.
pub fn draft_of_documents(alloc: Global, docs: &[Document]) -> Result<Draft, OutOfMemory>
    requires shaped { shape_fault (map (λ d. d.root) docs.now) ≡ None }
    requires few { length docs.now < 2 ^ 32 }
    requires small { All (λ d. elements_in d.root ≤ MAX_ELEMENTS) docs.now }
    requires flat { All (λ d. depth d.root ≤ MAX_DEPTH) docs.now }
    ensures { IfOk result (λ draft. draft ≡ draft_of (map (λ d. d.root) docs.now)) }
{
    let mut definitions = Items::new(alloc);
    for (place, doc) in docs.iter().enumerate() {
        file_definitions(alloc, place as u32, &doc.root, &mut definitions)?;
    }
    Ok(Draft { definitions })
}

/// The definitions of a file, behind those before.
fn file_definitions(
    alloc: Global,
    file: u32,
    root: &Element,
    all: &mut Items<DraftDefinition>,
) -> Result<(), OutOfMemory>
    requires short { list_all are_short (out-Element root.now).children ≡ true }
    requires few { size_of root.now < 2 ^ 32 }
    ensures { OnOk result (all.new ≡ all.old ++ file_definitions (file, root.now)) }
{
    let mut reader = Reader { alloc, number: 1 };
    let around = Around {
        file,
        container: Items::new(alloc),
        is_private: false,
    };
    let children = root.children.as_slice();
    definitions_in(&mut reader, Inside::Root, &around, children, all)
}
