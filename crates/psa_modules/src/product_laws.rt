//! The law of modules for the products of a top event. The functions do nothing: their contracts are
//! the laws.
ghost use Rattle.std.specs.Prelude.{◌≡◌, ◌↔◌, ◌≤◌, ◌+◌, ℕ, Bool, List, Some, length, true};
ghost use Rattle.std.specs.List.{slice_get};
ghost use Rattle.psa_logic.specs.Sets.{occurs};
ghost use Rattle.psa_model.specs.declared.expanded.Expanded.{Expanded};
ghost use Rattle.psa_model.specs.declared.model.Model.{Model};
ghost use Rattle.psa_model.specs.declared.settings.Mode.TheVariants.{CutSets};
ghost use Rattle.psa_model.specs.Expansion.{expanded_of};
ghost use Rattle.psa_model.specs.Models.{IsModel};
ghost use Rattle.psa_model.specs.Ranks.{ranks_of};
ghost use Rattle.psa_model.specs.Report.{Analysis, IsProductOf};
ghost use Rattle.psa_model.specs.Standing.{target_stands};
ghost use Rattle.psa_model.specs.Truth.{IsResolved};
ghost use Rattle.psa_modules.specs.ModuleText.{quotient_analysis};
ghost use Rattle.psa_modules.specs.OuterModules.{events_inside, gate_target, keeps_its_events, outer_modules};
ghost use Rattle.psa_modules.specs.PutTogether.{has_module, IsPutTogether};
ghost use Rattle.psa_modules.specs.Quotients.{quotient_of, IsExpansion};
ghost use Rattle.psa_modules.specs.Ways.{events_around};

/// The lists of the quotient and of the modules determine the products of a top event, its minimal cut
/// sets within the order limit: these are exactly the sets that come from a product of the quotient by
/// putting, for each added event, a product of its module, and that are within the limit.
pub fn products_are_put_together()
    ensures { (analysis : Analysis) (top : ℕ) (product : List ℕ) → IsExpansion analysis.expanded
        → target_stands analysis.expanded.model (gate_target top) ≡ true
        → analysis.settings.mode ≡ CutSets
        → IsProductOf analysis (gate_target top) product
        ↔ ((length product ≤ analysis.settings.limit_order)
        × ((whole : List ℕ) × (puts : ℕ → List ℕ) × IsPutTogether analysis top whole puts product)) }
{}

/// Each product comes once: it tells the product of the quotient from which it comes, and what was put
/// for each module in it.
pub fn products_come_once()
    ensures whole { (analysis : Analysis) (top : ℕ) (one other : List ℕ) (puts others : ℕ → List ℕ)
        (product : List ℕ) → IsExpansion analysis.expanded
        → target_stands analysis.expanded.model (gate_target top) ≡ true
        → analysis.settings.mode ≡ CutSets → IsPutTogether analysis top one puts product
        → IsPutTogether analysis top other others product → one ≡ other }
    ensures puts { (analysis : Analysis) (top : ℕ) (whole : List ℕ) (puts others : ℕ → List ℕ)
        (product : List ℕ) → IsExpansion analysis.expanded
        → target_stands analysis.expanded.model (gate_target top) ≡ true
        → analysis.settings.mode ≡ CutSets → IsPutTogether analysis top whole puts product
        → IsPutTogether analysis top whole others product → (place gate : ℕ)
        → slice_get (outer_modules analysis.expanded top) place ≡ Some gate
        → has_module analysis top whole place ≡ true → puts place ≡ others place }
{}

/// And each product of the quotient, with a product of its module for each added event, gives a set.
pub fn each_choice_is_put_together()
    ensures { (analysis : Analysis) (top : ℕ) (whole : List ℕ) (puts : ℕ → List ℕ)
        → IsExpansion analysis.expanded
        → target_stands analysis.expanded.model (gate_target top) ≡ true
        → analysis.settings.mode ≡ CutSets
        → IsProductOf (quotient_analysis analysis top) (gate_target top) whole
        → ((place gate : ℕ) → slice_get (outer_modules analysis.expanded top) place ≡ Some gate
        → has_module analysis top whole place ≡ true → IsProductOf analysis (gate_target gate) (puts place))
        → (product : List ℕ) × IsPutTogether analysis top whole puts product }
{}

/// The references of a quotient stand, as what prepares and lists its products asks; and there is an
/// event more for each outer module.
pub fn quotients_are_resolved()
    ensures resolved { (expanded : Expanded) (top : ℕ) → IsExpansion expanded
        → target_stands expanded.model (gate_target top) ≡ true
        → IsResolved (quotient_of expanded top).model }
    ensures gates { (expanded : Expanded) (top : ℕ)
        → length (quotient_of expanded top).model.gates ≡ length expanded.model.gates }
    ensures events { (expanded : Expanded) (top : ℕ) → length (quotient_of expanded top).events
        ≡ length expanded.events + length (outer_modules expanded top) }
{}

/// A model that has what is promised of one has, with its events, what the laws ask for.
pub fn expansions_of_models()
    ensures { (on : Bool) (model : Model) → IsModel model → IsExpansion (expanded_of on model) }
{}

/// Neither a quotient nor a module has more ranks than the top event, so where that has not too many,
/// they have not.
pub fn quotients_have_fewer_ranks()
    ensures quotient { (expanded : Expanded) (top : ℕ) → IsExpansion expanded
        → target_stands expanded.model (gate_target top) ≡ true
        → length (ranks_of (quotient_of expanded top) (gate_target top))
        ≤ length (ranks_of expanded (gate_target top)) }
    ensures modules { (expanded : Expanded) (top gate : ℕ) → IsExpansion expanded
        → target_stands expanded.model (gate_target top) ≡ true
        → occurs (outer_modules expanded top) gate ≡ true
        → length (ranks_of expanded (gate_target gate)) ≤ length (ranks_of expanded (gate_target top)) }
{}

/// Each occurrence of an event inside a gate is inside an occurrence of it exactly where the gate stands
/// on every way from the top event to each of its events: where none of them is met around it.
pub fn modules_stand_on_every_way()
    ensures { (expanded : Expanded) (top gate : ℕ) → IsExpansion expanded
        → target_stands expanded.model (gate_target top) ≡ true
        → (keeps_its_events expanded top gate ≡ true)
        ↔ ((event : ℕ) → occurs (events_inside expanded gate) event ≡ true
        → occurs (events_around expanded top gate) event ≡ true → ⊥) }
{}
