ghost use Rattle.std.specs.Prelude.{◌≡◌, IfOk};
ghost use Rattle.std.specs.Option.{option_map};
ghost use Rattle.psa_model.specs.Drafts.{IsDraft};
ghost use Rattle.psa_names.specs.Found.{reference_meanings};
ghost use Rattle.psa_names.specs.NameFaults.{bad_references, duplicates};
ghost use Rattle.psa_names.specs.Outlines.{entries_of};
ghost use Rattle.psa_names.specs.PlacedFaults.{earliest};
ghost use Rattle.psa_lookup.specs.Senses.{IsNames, IsPass, names_entries};
ghost use Rattle.psa_lookup.specs.Sooner.{placed_fault};

use crate::grouped::group_names;
use crate::names::Names;
use crate::pass::Pass;
use crate::placed::Placed;
use crate::references::follow_all;
use crate::table::build_table;
use psa_model::Draft;
use psa_text::OutOfMemory;
use std::alloc::Global;

/// The names of a draft, and what its references stand for.
#[derive(Drop)]
pub struct Looked<'a> {
    pub names: Names<'a>,
    /// The first name that stands twice in a space.
    pub repeat: Option<Placed<'a>>,
    pub references: Pass<'a>,
}

/// Looks up the names of a draft: the first that stands twice in a space, what its references stand
/// for, and the first of them that stands for nothing of its kind.
pub fn look_up(alloc: Global, draft: &Draft) -> Result<Looked<'_>, OutOfMemory>
    requires { IsDraft draft.now }
    ensures names { IfOk result (λ looked. IsNames looked.names) }
    ensures same { IfOk result (λ looked. names_entries looked.names ≡ entries_of draft.now) }
    ensures repeat { IfOk result (λ looked. option_map placed_fault looked.repeat
        ≡ earliest (duplicates (entries_of draft.now))) }
    ensures references { IfOk result (λ looked. IsPass (entries_of draft.now) looked.references
        (bad_references (entries_of draft.now)) (reference_meanings (entries_of draft.now))) }
{
    let built = build_table(alloc, draft.definitions.as_slice())?;
    let grouped = group_names(alloc, &built.table)?;
    let names = Names {
        table: built.table,
        grouped: grouped.places,
    };
    let references = follow_all(alloc, &names)?;
    Ok(Looked {
        names,
        repeat: built.first,
        references,
    })
}
