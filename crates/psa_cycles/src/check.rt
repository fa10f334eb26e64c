ghost use Rattle.std.specs.Prelude.{◌≡◌, None, Some, IfOk, OnOk};
ghost use Rattle.psa_model.specs.Drafts.{IsDraft};
ghost use Rattle.psa_model.specs.declared.fault.ModelFault.{ModelFault};
ghost use Rattle.psa_names.specs.Found.{HasNames, IsFound};
ghost use Rattle.psa_names.specs.NameFaults.{name_fault};
ghost use Rattle.psa_names.specs.Outlines.{entry_of};
ghost use Rattle.psa_names.specs.PlacedFaults.{fault_of as placed_fault_of};

use crate::graph::graph_of;
use psa_chains::{ChainFault, chain_fault};
use psa_model::{Draft, DraftDefinition, FaultKind, MAX_DEPTH, ModelFault};
use psa_names::{CheckError, Found};
use psa_text::{OutOfMemory, Text};
use std::alloc::Global;

/// Checks that no definition of a draft reaches itself by its references, and then that none is
/// deeper than `MAX_DEPTH`, over what was found of its names. The fault is that of the first
/// definition on a cycle in document order (not of one that only leads to a cycle), else of the
/// first that is too deep. The time grows as the size of the draft. (The checks and their order are
/// this project's own.)
pub fn check_chains(alloc: Global, draft: &Draft, found: &Found) -> Result<(), CheckError>
    requires draft { IsDraft draft.now }
    requires names { HasNames draft.now }
    requires found { IsFound draft.now found.now }
    ensures ok { OnOk result (name_fault draft.now ≡ None) }
    ensures fault { (fault : ModelFault) → result ≡ Err (CheckError.Fault fault)
        → name_fault draft.now ≡ Some fault }
{
    let graph = graph_of(alloc, draft, found)?;
    let definitions = draft.definitions.as_slice();
    let limit = u64::from(MAX_DEPTH);
    match chain_fault(alloc, graph.rows.as_slice(), graph.nested.as_slice(), limit)? {
        None => Ok(()),
        Some(ChainFault::Cycle(place)) => {
            let fault = fault_of(alloc, &definitions[place as usize], FaultKind::Cycle)?;
            Err(CheckError::Fault(fault))
        }
        Some(ChainFault::TooDeep(place)) => {
            let fault = fault_of(alloc, &definitions[place], FaultKind::TooDeep)?;
            Err(CheckError::Fault(fault))
        }
    }
}

/// A fault of a definition.
fn fault_of(
    alloc: Global,
    definition: &DraftDefinition,
    kind: FaultKind,
) -> Result<ModelFault, OutOfMemory>
    ensures { IfOk result
        (λ fault. fault ≡ (placed_fault_of kind (entry_of definition.now)).fault) }
{
    Ok(ModelFault {
        kind,
        file: definition.place.file,
        line: definition.place.line,
        name: Text::from_str(alloc, definition.name.as_str())?,
    })
}
