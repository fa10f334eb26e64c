ghost use Rattle.std.specs.Prelude.{◌≡◌, Err, None, Some, IfOk, OnOk};
ghost use Rattle.std.specs.Option.{option_map};
ghost use Rattle.psa_model.specs.Drafts.{IsDraft};
ghost use Rattle.psa_model.specs.declared.fault.ModelFault.{ModelFault};
ghost use Rattle.psa_names.specs.Found.{HasNames, IsFound};
ghost use Rattle.psa_names.specs.NameFaults.{name_fault};
ghost use Rattle.psa_lookup.specs.Sooner.{placed_fault};

use crate::groups::check_groups;
use crate::lookup::look_up;
use crate::placed::Placed;
use psa_model::{Draft, ModelFault};
use psa_names::{CheckError, Found, Sense};
use psa_text::{Items, OutOfMemory, Text};
use std::alloc::Global;

/// A fault as it is told.
fn model_fault(alloc: Global, placed: Placed) -> Result<ModelFault, OutOfMemory>
    ensures { IfOk result (λ fault. fault ≡ (placed_fault placed.entry).fault) }
{
    Ok(ModelFault {
        kind: placed.kind,
        file: placed.place.file,
        line: placed.place.line,
        name: Text::from_str(alloc, placed.name.as_str())?,
    })
}

/// What was found, or the first fault.
fn concluded(
    alloc: Global,
    first: Option<Placed>,
    references: Items<Sense>,
    members: Items<Sense>,
) -> Result<Found, CheckError>
    ensures found { IfOk result (λ found. (first.entry ≡ None)
        × (found.references ≡ references) × (found.members ≡ members)) }
    ensures fault { (fault : ModelFault) → result ≡ Err (CheckError.Fault fault)
        → option_map (λ one. (placed_fault one).fault) first.entry ≡ Some fault }
{
    match first {
        Some(first) => Err(CheckError::Fault(model_fault(alloc, first)?)),
        None => Ok(Found {
            references,
            members,
        }),
    }
}

/// What the names of a draft stand for, or its first fault of the first three checks: a name that
/// stands twice in a space, a reference that stands for nothing or for another kind, a common cause
/// group that is not allowed. Each check goes through the whole draft before the next begins, and its
/// fault is the one that stands first in the document. The time grows as the size of the draft, where
/// its names do not collide in the tables. (The checks and their order are this project's own.)
pub fn find_names(alloc: Global, draft: &Draft) -> Result<Found, CheckError>
    requires { IsDraft draft.now }
    ensures names { OnOk result (HasNames draft.now) }
    ensures found { IfOk result (IsFound draft.now) }
    ensures fault { (fault : ModelFault) → result ≡ Err (CheckError.Fault fault)
        → name_fault draft.now ≡ Some fault }
{
    let looked = look_up(alloc, draft)?;
    let groups = check_groups(alloc, &looked.names)?;
    let first = looked.repeat.or(looked.references.first).or(groups.first);
    concluded(alloc, first, looked.references.senses, groups.senses)
}
