ghost use Rattle.std.specs.Prelude.{◌≡◌, map};
ghost use Rattle.std.specs.Option.{option_map};
ghost use Rattle.psa_lookup.specs.Sooner.{placed_fault, sooner_of};

use psa_model::{FaultKind, Place};
use psa_text::Text;

/// A fault with its place in the document.
#[derive(Clone, Copy)]
pub struct Placed<'a> {
    pub kind: FaultKind,
    pub place: Place,
    pub tag: u32,
    pub name: &'a Text,
}

/// The one of two faults that stands first in the document, the first of the two where they stand at
/// one place.
pub fn sooner<'a>(first: Option<Placed<'a>>, second: Option<Placed<'a>>) -> Option<Placed<'a>>
    ensures { option_map placed_fault result
        ≡ sooner_of (option_map placed_fault first.entry) (option_map placed_fault second.entry) }
{
    let Some(one) = first else {
        return second;
    };
    let Some(other) = second else {
        return Some(one);
    };
    let before = other.place.file < one.place.file
        || (other.place.file == one.place.file && other.tag < one.tag);
    if before { Some(other) } else { Some(one) }
}
