//! What can be said of paths and targets in general. The functions do nothing: their contracts are the
//! laws.
ghost use Rattle.std.specs.Prelude.{◌≡◌, ◌≤◌, ℕ, suc, true, [], None, All, length};
ghost use Rattle.psa_model.specs.declared.limits.TheConstants.{MAX_INSTRUCTIONS, MAX_PATHS};
ghost use Rattle.psa_model.specs.declared.model.Initiating.{Initiating};
ghost use Rattle.psa_model.specs.declared.model.Model.{Model};
ghost use Rattle.psa_model.specs.declared.walks.Branch.{Branch};
ghost use Rattle.psa_model.specs.PathFaults.{joined_paths, walk_fault};
ghost use Rattle.psa_model.specs.PathLevels.{branch_within};
ghost use Rattle.psa_model.specs.PathTargets.{arrived_in, targets_of};
ghost use Rattle.psa_model.specs.Paths.{HasArrived, Travelled, arrivals, paths_of};
ghost use Rattle.psa_model.specs.Targets.{top_targets};

/// More levels than there are branches on a way change no path.
pub fn more_levels_change_no_path()
    ensures { (levels : ℕ) (model : Model) (initiating left : ℕ) (branch : Branch)
        (along : Travelled)
        → branch_within levels model branch ≡ true
        → arrivals (suc levels) model initiating left branch along
        ≡ arrivals levels model initiating left branch along }
{}

/// A path that arrives has at most as many steps as instructions may be carried out.
pub fn paths_are_short()
    ensures { (model : Model) (place : ℕ) (initiating : Initiating)
        → All (λ a. length a.path ≤ MAX_INSTRUCTIONS)
        (arrived_in (paths_of model place initiating)) }
{}

/// Where the walks have no fault, each path arrived, and there are not too many.
pub fn walks_without_a_fault_end()
    ensures arrived { (model : Model) → walk_fault model ≡ None
        → All (λ one. HasArrived one.1) (joined_paths model 0 model.initiatings) }
    ensures few { (model : Model) → walk_fault model ≡ None
        → length (joined_paths model 0 model.initiatings) ≤ MAX_PATHS }
{}

/// A model without initiating events has its top events as targets, and no fault of walks.
pub fn top_events_alone()
    ensures targets { (model : Model) → model.initiatings ≡ []
        → targets_of model ≡ top_targets model }
    ensures fault { (model : Model) → model.initiatings ≡ [] → walk_fault model ≡ None }
{}
