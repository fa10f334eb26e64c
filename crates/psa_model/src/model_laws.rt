//! What is promised of a model, by levels and of small models. The functions do nothing: their contracts
//! are the laws.
ghost use Rattle.std.specs.Prelude.{◌≡◌, ℕ, suc, true};
ghost use Rattle.psa_model.specs.declared.model.Model.{Model};
ghost use Rattle.psa_model.specs.declared.walks.Branch.{Branch};
ghost use Rattle.psa_model.specs.declared.walks.Instruction.{Instruction};
ghost use Rattle.psa_model.specs.GroupExample.{group_model};
ghost use Rattle.psa_model.specs.Models.{IsModel, IsOfSize};
ghost use Rattle.psa_model.specs.PathLevels.{branch_within};
ghost use Rattle.psa_model.specs.WalkLevels.{instruction_within, walk_within};

/// What is within some levels is within more, and so many levels are then enough for all ways from a
/// branch.
pub fn more_levels_change_no_walk()
    ensures instruction { (n : ℕ) (model : Model) (one : Instruction)
        → instruction_within n model one ≡ true → instruction_within (suc n) model one ≡ true }
    ensures branch { (n : ℕ) (model : Model) (branch : Branch)
        → walk_within n model branch ≡ true → walk_within (suc n) model branch ≡ true }
    ensures ways { (n : ℕ) (model : Model) (branch : Branch)
        → walk_within n model branch ≡ true → branch_within n model branch ≡ true }
{}

/// The model of a group of three members has what is promised of a model, and its size is within the
/// limit.
pub fn group_is_a_model()
    ensures model { IsModel group_model }
    ensures size { IsOfSize group_model }
{}
