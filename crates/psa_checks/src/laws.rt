//! Laws of models of drafts, each the contract of a function that does nothing.
ghost use Rattle.std.specs.Prelude.{◌≡◌, None};
ghost use Rattle.psa_model.specs.Drafts.{IsDraft};
ghost use Rattle.psa_model.specs.Models.{IsModel, IsOfSize};
ghost use Rattle.psa_model.specs.declared.draft.Draft.{Draft};
ghost use Rattle.psa_names.specs.ModelOfDraft.{model_of};
ghost use Rattle.psa_names.specs.NameFaults.{name_fault};

/// The model of a draft without a fault of names has what is promised of a model.
pub fn models_keep_their_promise()
    ensures model { (draft : Draft) → IsDraft draft → name_fault draft ≡ None
        → IsModel (model_of draft) }
    ensures size { (draft : Draft) → IsDraft draft → name_fault draft ≡ None
        → IsOfSize (model_of draft) }
{}
