//! What can be said of edits in general. The functions do nothing: their contracts are the laws.
ghost use Rattle.std.specs.Prelude.{◌≡◌, ℕ, List, All, Bool, false, Some, option_and_then};
ghost use Rattle.psa_number.specs.Scaled.{Scaled};
ghost use Rattle.psa_model.specs.declared.expanded.Expanded.{Expanded};
ghost use Rattle.psa_model.specs.declared.targets.Target.{Target};
ghost use Rattle.psa_model.specs.Report.{Analysis, IsReport, ranked_truth};
ghost use Rattle.psa_outcome.specs.declared.loaded.Loaded.{Loaded};
ghost use Rattle.psa_outcome.specs.Loading.{IsLoaded, loaded_analysis};
ghost use Rattle.psa_outcome.specs.Runs.{all_targets};
ghost use Rattle.psa_whatif.specs.EditedLoads.{expanded_with, loaded_after, loaded_with};
ghost use Rattle.psa_whatif.specs.Edits.{Edit, IsEdited, IsTaken, house, meets_house, value};
ghost use Rattle.psa_whatif.specs.EditText.{IsWhatIfText, after_action, makes, reported_states, undoes};

/// An edit that is taken keeps what is loaded, and other edits are taken after it as before.
pub fn edits_keep_what_is_loaded()
    ensures one { (loaded : Loaded) (edit : Edit) → IsLoaded loaded
        → IsTaken (loaded_analysis loaded) edit → IsLoaded (loaded_with edit loaded) }
    ensures others { (loaded : Loaded) (edit other : Edit) → IsTaken (loaded_analysis loaded) other
        → IsTaken (loaded_analysis (loaded_with edit loaded)) other }
    ensures all { (loaded : Loaded) (edits : List Edit) → IsLoaded loaded
        → All (IsTaken (loaded_analysis loaded)) edits → IsLoaded (loaded_after edits loaded) }
{}

/// The edited model has no fault: what it comes to from scratch is what is loaded after the edits.
pub fn edited_models_have_an_analysis()
    ensures { (loaded : Loaded) (edits : List Edit) → IsLoaded loaded
        → All (IsTaken (loaded_analysis loaded)) edits
        → IsEdited (loaded_analysis loaded) edits (loaded_analysis (loaded_after edits loaded)) }
{}

/// A house event that the unfolding of a target does not meet changes none of its truth.
pub fn unmet_house_events_change_no_truth()
    ensures { (expanded : Expanded) (target : Target) (id : ℕ) (state : Bool)
        → meets_house expanded.model target id ≡ false
        → ranked_truth (expanded_with (house id state) expanded) target
        ≡ ranked_truth expanded target }
{}

/// A probability changes no truth.
pub fn probabilities_change_no_truth()
    ensures { (expanded : Expanded) (target : Target) (id : ℕ) (number : Scaled)
        → ranked_truth (expanded_with (value id number) expanded) target
        ≡ ranked_truth expanded target }
{}

/// After an edit that is taken back the edits are those before it, and the same edits give the same
/// report.
pub fn an_undone_edit_leaves_the_report()
    ensures edits { (edits : List Edit) (edit : Edit)
        → option_and_then (λ after. after_action after undoes) (after_action edits (makes edit))
        ≡ Some edits }
    ensures report { (accepted : Analysis) (edits : List Edit) (one other : Analysis)
        (text more : List ℕ) → IsEdited accepted edits one → IsEdited accepted edits other
        → IsReport one (all_targets one) text → IsReport other (all_targets other) more
        → text ≡ more }
{}

/// A text of edits asks for edits that are taken alone, and has one text of reports.
pub fn each_text_of_edits_has_one_text()
    ensures taken { (accepted : Analysis) (edits : List ℕ)
        → All (All (IsTaken accepted)) (reported_states accepted edits) }
    ensures exists { (loaded : Loaded) (edits : List ℕ) → IsLoaded loaded
        → (text : List ℕ) × IsWhatIfText (loaded_analysis loaded) edits text }
    ensures unique { (accepted : Analysis) (edits : List ℕ) (one other : List ℕ)
        → IsWhatIfText accepted edits one → IsWhatIfText accepted edits other → one ≡ other }
{}
