ghost use Rattle.std.specs.Prelude.{◌≡◌, ◌<◌, ◌^◌, length, map, IfOk, true};
ghost use Rattle.std.specs.Option.{option_map};
ghost use Rattle.psa_model.specs.Drafts.{are_ascending, position_of};
ghost use Rattle.psa_names.specs.NameFaults.{duplicates};
ghost use Rattle.psa_names.specs.Outlines.{entry_of};
ghost use Rattle.psa_names.specs.PlacedFaults.{earliest};
ghost use Rattle.psa_lookup.specs.Sooner.{placed_fault};
ghost use Rattle.psa_lookup.specs.Tables.{IsTable};

use crate::duplicates::note_all;
use crate::forks::first_states;
use crate::numbers::{Numbered, number_containers};
use crate::placed::Placed;
use psa_model::DraftDefinition;
use psa_spaces::Places;
use psa_text::OutOfMemory;
use std::alloc::Global;

/// The definitions of a draft, their containers, and the places of their names.
#[derive(Drop)]
pub struct Table<'a> {
    pub definitions: &'a [DraftDefinition],
    pub numbered: Numbered<'a>,
    pub places: Places<'a>,
}

/// A table of the names of a draft, and the first name that stands twice in a space.
#[derive(Drop)]
pub struct Built<'a> {
    pub table: Table<'a>,
    pub first: Option<Placed<'a>>,
}

/// Builds the table of the names of definitions in document order.
pub fn build_table<'a>(
    alloc: Global,
    definitions: &'a [DraftDefinition],
) -> Result<Built<'a>, OutOfMemory>
    requires few { length definitions.now < 2 ^ 32 }
    requires ascending { are_ascending (map position_of definitions.now) ≡ true }
    ensures table { IfOk result (λ built. IsTable built.table) }
    ensures same { IfOk result (λ built. built.table.definitions.now ≡ definitions.now) }
    ensures first { IfOk result (λ built. option_map placed_fault built.first
        ≡ earliest (duplicates (map entry_of definitions.now))) }
{
    let least = first_states(alloc, definitions)?;
    let numbered = number_containers(alloc, definitions)?;
    let noted = note_all(alloc, definitions, &numbered, &least)?;
    Ok(Built {
        table: Table {
            definitions,
            numbered,
            places: noted.places,
        },
        first: noted.first,
    })
}
