ghost use Rattle.std.specs.Prelude.{◌≡◌, None, Some, IfOk, OnOk};
ghost use Rattle.psa_model.specs.Drafts.{IsDraft};
ghost use Rattle.psa_model.specs.Models.{IsModel, IsOfSize};
ghost use Rattle.psa_model.specs.declared.fault.ModelFault.{ModelFault};
ghost use Rattle.psa_names.specs.ModelOfDraft.{model_of};
ghost use Rattle.psa_names.specs.NameFaults.{name_fault};

use psa_assembly::model_of_found;
use psa_cycles::check_chains;
use psa_lookup::find_names;
use psa_model::{Draft, Model};
use psa_names::CheckError;
use std::alloc::Global;

/// The model of a draft: each name is replaced by the place of what it stands for. Where the draft has
/// a fault of names, the first: a name that stands twice, a reference without its definition or of
/// another kind, a common cause group that is not allowed, a cycle of references, a definition that is
/// too deep, each check over the whole draft before the next begins. (The checks and their order are
/// this project's own.)
pub fn resolve(alloc: Global, draft: &Draft) -> Result<Model, CheckError>
    requires { IsDraft draft.now }
    ensures names { OnOk result (name_fault draft.now ≡ None) }
    ensures model { IfOk result (λ model. model ≡ model_of draft.now) }
    ensures promised { IfOk result IsModel }
    ensures size { IfOk result IsOfSize }
    ensures fault { (fault : ModelFault) → result ≡ Err (CheckError.Fault fault)
        → name_fault draft.now ≡ Some fault }
{
    let found = find_names(alloc, draft)?;
    check_chains(alloc, draft, &found)?;
    let model = model_of_found(alloc, draft, &found)?;
    Ok(model)
}
