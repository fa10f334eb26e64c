//! What can be said of parts in general. The function does nothing: its contract is the law.
ghost use Rattle.std.specs.Prelude.{not};
ghost use Rattle.psa_model.specs.declared.expanded.Expanded.{Expanded};
ghost use Rattle.psa_model.specs.declared.targets.Target.{Target};
ghost use Rattle.psa_model.specs.Parts.{IsPart, IsSimplePart, Truth};
ghost use Rattle.psa_model.specs.Ranks.{ranks_of};
ghost use Rattle.psa_model.specs.Targets.{truth_by_rank};

/// The truth of a target is one of its parts, and so is the opposite of a truth that it is made of.
pub fn targets_are_parts_of_themselves()
    ensures whole { (expanded : Expanded) (target : Target)
        → IsPart expanded target (truth_by_rank expanded target (ranks_of expanded target)) }
    ensures opposite { (expanded : Expanded) (target : Target) (f : Truth)
        → IsSimplePart expanded target f → IsPart expanded target (λ s. not (f s)) }
{}
