ghost use Rattle.std.specs.Prelude.{◌≡◌, ◌&&◌, IfOk, OnOk, is_some};
ghost use Rattle.psa_spaces.specs.Addresses.{Address, address_of, place_of};
ghost use Rattle.psa_names.specs.Outlines.{entry_of};
ghost use Rattle.psa_lookup.specs.Keys.{addresses_with, only_if};
ghost use Rattle.psa_lookup.specs.Noting.{after_noting};
ghost use Rattle.psa_lookup.specs.Repeats.{is_noted_by};

use crate::families::{family_of, is_in_whole, is_inside, is_one};
use psa_model::DraftDefinition;
use psa_spaces::{Key, Places, Scope};
use psa_text::OutOfMemory;

/// Notes a key where that is wanted, and answers whether it had a place before.
fn note_if<'a>(
    places: &mut Places<'a>,
    wanted: bool,
    key: Key<'a>,
    place: u32,
) -> Result<bool, OutOfMemory>
    ensures before { IfOk result (λ before. before
        ≡ (wanted && is_some (place_of places.old (address_of key.entry)))) }
    ensures after { OnOk result ((address : Address) → place_of places.new address
        ≡ after_noting places.old (only_if wanted (address_of key.entry)) place address) }
{
    if !wanted {
        return Ok(false);
    }
    let before = places.note(key, place)?;
    Ok(before.is_some())
}

/// Notes a definition in its spaces, and answers whether its name stood in one of them before.
pub fn note_definition<'a>(
    places: &mut Places<'a>,
    definition: &'a DraftDefinition,
    number: u32,
    place: u32,
) -> Result<bool, OutOfMemory>
    ensures before { IfOk result
        (λ before. before ≡ is_noted_by (place_of places.old) number (entry_of definition.now)) }
    ensures after { OnOk result ((address : Address) → place_of places.new address
        ≡ after_noting places.old (addresses_with number (entry_of definition.now)) place address) }
{
    let family = family_of(definition.kind);
    let name = definition.name.as_bytes();
    let contained = !definition.container.is_empty();
    let whole = Key {
        scope: Scope::Whole,
        family,
        within: 0,
        name,
    };
    let in_whole = note_if(
        places,
        is_in_whole(family, definition.private),
        whole,
        place,
    )?;
    let inner = Key {
        scope: Scope::Inside,
        family,
        within: number,
        name,
    };
    let inside = note_if(places, is_inside(family, contained), inner, place)?;
    Ok((in_whole && is_one(family)) || inside)
}
