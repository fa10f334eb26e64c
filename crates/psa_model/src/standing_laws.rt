//! What stands in the lists that it names. The functions do nothing: their contracts are the laws.
ghost use Rattle.std.specs.Prelude.{◌≡◌, ℕ, true, List};
ghost use Rattle.std.specs.List.{list_all};
ghost use Rattle.psa_model.specs.declared.expanded.Expanded.{Expanded};
ghost use Rattle.psa_model.specs.declared.model.Model.{Model};
ghost use Rattle.psa_model.specs.declared.targets.Target.{Target};
ghost use Rattle.psa_model.specs.Models.{IsModel};
ghost use Rattle.psa_model.specs.PathTargets.{targets_of};
ghost use Rattle.psa_model.specs.Ranks.{ranks_of};
ghost use Rattle.psa_model.specs.Report.{Analysis, IsProductOf};
ghost use Rattle.psa_model.specs.Standing.{literals_stand, ranks_stand, target_stands};

/// The targets of a model that has what is promised of one stand.
pub fn targets_of_a_model_stand()
    ensures { (model : Model) → IsModel model
        → list_all (target_stands model) (targets_of model) ≡ true }
{}

/// The ranks of a target are those of expanded events, whatever the model and the target.
pub fn ranks_of_a_target_stand()
    ensures { (expanded : Expanded) (target : Target)
        → ranks_stand expanded (ranks_of expanded target) ≡ true }
{}

/// The literals of a target's products have ranks of its events.
pub fn literals_of_a_product_stand()
    ensures { (analysis : Analysis) (target : Target) (product : List ℕ)
        → IsProductOf analysis target product
        → literals_stand (ranks_of analysis.expanded target) product ≡ true }
{}
