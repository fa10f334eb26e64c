ghost use Rattle.std.specs.Prelude.{◌≡◌, ◌==◌, ◌<◌, ◌^◌, ◌++◌, ◌∷◌, [], length, IfOk, OnOk, if◌then◌else◌};
ghost use Rattle.psa_model.specs.declared.draft.DefinitionKind.{DefinitionKind};
ghost use Rattle.psa_names.specs.Outlines.{Entries, entries_of};
ghost use Rattle.psa_names.specs.Ids.{all_of_kind, kind_number, tree_id};
ghost use Rattle.psa_bodies.specs.Numbering.{AreNumbers};
ghost use Rattle.psa_bodies.specs.Trees.{AreDistinct, first_with_name, places_of, tree_has_name};

use crate::numbers::{Numbered, Numbers, same_kind};
use psa_model::{DefinitionKind, Draft};
use psa_text::{Items, OutOfMemory, Text};
use sqlite_items::at;
use std::alloc::Global;

/// The places in the draft of the definitions of a kind.
pub fn places_of_kind(
    alloc: Global,
    numbers: &Numbers,
    kind: DefinitionKind,
) -> Result<Items<u32>, OutOfMemory>
    requires few { length numbers.now.definitions < 2 ^ 32 }
    ensures { IfOk result (λ places. (entries : Entries) → AreNumbers entries numbers.now
        → places ≡ places_of kind entries) }
{
    let mut places = Items::new(alloc);
    for (place, numbered) in numbers.definitions.as_slice().iter().enumerate() {
        push_place(&mut places, *numbered, kind, place)?;
    }
    Ok(places)
}

/// Adds the place of a definition where it is of a kind.
fn push_place(
    places: &mut Items<u32>,
    numbered: Numbered,
    kind: DefinitionKind,
    place: usize,
) -> Result<(), OutOfMemory>
    requires { place < 2 ^ 32 }
    ensures { OnOk result (places.new ≡ places.old
        ++ (if kind_number numbered.kind == kind_number kind then place ∷ [] else [])) }
{
    if same_kind(numbered.kind, kind) {
        places.push(place as u32)
    } else {
        Ok(())
    }
}

/// The fault tree or event tree around a definition, by its place among those of its kind. The one
/// that is open is looked at first; of a draft that was read it is always this one.
pub fn tree_around(draft: &Draft, trees: &[u32], open: u32, container: &[Text]) -> u32
    requires few { length trees.now < 2 ^ 32 }
    ensures { (kind : DefinitionKind) → trees.now ≡ places_of kind (entries_of draft.now)
        → AreDistinct (all_of_kind kind (entries_of draft.now))
        → result ≡ tree_id kind (entries_of draft.now) container.now }
{
    match container {
        [] => 0,
        [name, ..] => {
            if is_named(draft, trees, open, name) {
                open
            } else {
                first_named(draft, trees, name)
            }
        }
    }
}

/// The first tree with a name, or 0 where there is none.
fn first_named(draft: &Draft, trees: &[u32], name: &Text) -> u32
    requires few { length trees.now < 2 ^ 32 }
    ensures { result ≡ first_with_name draft.now.definitions trees.now name.now }
{
    for number in 0..trees.len() as u32 {
        if is_named(draft, trees, number, name) {
            return number;
        }
    }
    0
}

/// Whether a tree has this name.
fn is_named(draft: &Draft, trees: &[u32], number: u32, name: &Text) -> bool
    ensures { result ≡ tree_has_name draft.now.definitions trees.now name.now number }
{
    match at(trees, number as usize) {
        Some(place) => match at(draft.definitions.as_slice(), *place as usize) {
            Some(definition) => definition.name.as_str() == name.as_str(),
            None => false,
        },
        None => false,
    }
}

/// A place as a number; 0 where it is too large for one.
pub fn number_of(place: usize) -> u32
    ensures { place < 2 ^ 32 → result ≡ place }
{
    u32::try_from(place).unwrap_or(0)
}
