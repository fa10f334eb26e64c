//! What the definitions say of small models. The functions do nothing: their contracts are the
//! examples.
ghost use Rattle.std.specs.Prelude.{◌≡◌, ℕ, [], ◌∷◌, codes, map, negsuc, pos, None, Some, Err, Ok, true};
ghost use Rattle.psa_number.specs.Scaled.{Scaled};
ghost use Rattle.psa_model.specs.declared.expression.Expression.TheVariants as expression;
ghost use Rattle.psa_model.specs.declared.fault.FaultKind.TheVariants as fault;
ghost use Rattle.psa_model.specs.declared.limits.TheConstants.{MAX_VALUE_LEVELS};
ghost use Rattle.psa_model.specs.declared.model.Model.{Model};
ghost use Rattle.psa_model.specs.declared.targets.Target.TheVariants.{TopEvent};
ghost use Rattle.psa_model.specs.ConditionExample.{condition_model, collects, sequence_target};
ghost use Rattle.psa_model.specs.DraftExample.{gate_draft, stray_draft};
ghost use Rattle.psa_model.specs.Drafts.{IsDraft};
ghost use Rattle.psa_model.specs.EventTreeExample.{event_tree_model, sets_house};
ghost use Rattle.psa_model.specs.Expansion.{expanded_of, whole_number};
ghost use Rattle.psa_model.specs.FaultTexts.{fault_line};
ghost use Rattle.psa_model.specs.GroupExample.{group_model, shared, exactly};
ghost use Rattle.psa_model.specs.PathFaults.{walk_fault};
ghost use Rattle.psa_model.specs.PathTargets.{targets_of};
ghost use Rattle.psa_model.specs.ValueExample.{value_at, scaled, thrice_a_third, failing_at, one_by_zero, fault_of_a};
ghost use Rattle.psa_model.specs.Values.{exact_value, interval_value, values_of};

/// A group of three members by multiple Greek letters, with the distribution 0.1 and the factors 0.2
/// and 0.5: its subsets in order, as numbers with bit i for the member at place i; and the quantities
/// of its events, in units of 10^-12: 0.08 for each member alone, 0.005 for two, 0.01 for all three.
pub fn group_of_three_members()
    ensures events { (expanded_of true group_model).events
        ≡ map shared (1 ∷ 2 ∷ 4 ∷ 3 ∷ 5 ∷ 6 ∷ 7 ∷ []) }
    ensures values { (mission : Scaled) → values_of mission (expanded_of true group_model)
        ≡ Ok (map exactly (80_000_000_000 ∷ 80_000_000_000 ∷ 80_000_000_000
        ∷ 5_000_000_000 ∷ 5_000_000_000 ∷ 5_000_000_000 ∷ 10_000_000_000 ∷ [])) }
{}

/// Two initiating events share an event tree whose sequence follows a rule with a condition: the first
/// one's path through `down` collects the first formula, and every other path the second.
pub fn condition_in_a_rule()
    ensures fault { walk_fault condition_model ≡ None }
    ensures targets { targets_of condition_model
        ≡ sequence_target 0 0 ((collects 1 ∷ []) ∷ (collects 0 ∷ []) ∷ [])
        ∷ sequence_target 1 0 ((collects 1 ∷ []) ∷ (collects 1 ∷ []) ∷ []) ∷ [] }
{}

/// A fork in a fork, a house event that is set on one path, two paths to one sequence, and a link to a
/// second event tree: the top events, and the sequences in the order of their first paths.
pub fn event_tree_with_a_link()
    ensures fault { walk_fault event_tree_model ≡ None }
    ensures targets { targets_of event_tree_model
        ≡ TopEvent (record { 0 = 0 }) ∷ TopEvent (record { 0 = 1 })
        ∷ sequence_target 0 0 ((collects 0 ∷ []) ∷ [])
        ∷ sequence_target 0 1 ((collects 1 ∷ sets_house ∷ collects 2 ∷ [])
        ∷ (collects 1 ∷ collects 3 ∷ []) ∷ [])
        ∷ sequence_target 0 3 ((collects 1 ∷ sets_house ∷ collects 4 ∷ []) ∷ []) ∷ [] }
{}

/// The lines of a fault of the text, of the shape and of a value.
pub fn lines_of_faults()
    ensures text { fault_line (codes "a.xml")
        (record { kind = fault.BadNesting; file = 0; line = 1; name = [] })
        ≡ codes "scram: a.xml:1: bad nesting\n" }
    ensures shape { fault_line (codes "b.xml")
        (record { kind = fault.UnknownElement; file = 1; line = 12; name = codes "if" })
        ≡ codes "scram: b.xml:12: unknown element if\n" }
    ensures value { fault_line (codes "c.xml")
        (record { kind = fault.NotProbability; file = 2; line = 3; name = codes "pump" })
        ≡ codes "scram: c.xml:3: not a probability pump\n" }
{}

/// A third times three: before the interval is held to 1 it ends two units above; the exact value is 1.
pub fn third_times_three()
    ensures interval { (mission : Scaled) (model : Model)
        → interval_value MAX_VALUE_LEVELS mission model thrice_a_third
        ≡ Ok (record { lo = pos 999_999_999_999; hi = pos 1_000_000_000_002 }) }
    ensures exact { (terms : ℕ) (mission : Scaled) (model : Model)
        → exact_value MAX_VALUE_LEVELS terms mission model thrice_a_third
        ≡ record { num = pos 3; den = 3 } }
    ensures value { (mission : Scaled) → value_at mission (Some thrice_a_third)
        ≡ Ok (record { lo = pos 999_999_999_999; hi = pos 1_000_000_000_000 } ∷ []) }
{}

/// The number 10^-20 is between 0 and one unit, and a rate of 10^-6 over 8,760 hours fails with a
/// probability of 0.00872174299.
pub fn small_values()
    ensures number { (mission : Scaled)
        → value_at mission (Some (expression.Number (scaled 1 (negsuc 19))))
        ≡ Ok (record { lo = pos 0; hi = pos 1 } ∷ []) }
    ensures exponential { value_at (scaled 8760 (pos 0)) (Some (failing_at (scaled 1 (negsuc 5))))
        ≡ Ok (record { lo = pos 8_721_742_990; hi = pos 8_721_742_995 } ∷ []) }
{}

/// The fault of an event without an expression, of a division by 0, and of a value above 1.
pub fn faults_of_values()
    ensures missing { (mission : Scaled) → value_at mission None ≡ Err (fault_of_a fault.NoValue) }
    ensures divisor { (mission : Scaled)
        → value_at mission (Some one_by_zero) ≡ Err (fault_of_a fault.ZeroDivisor) }
    ensures above { (mission : Scaled)
        → value_at mission (Some (whole_number 2)) ≡ Err (fault_of_a fault.NotProbability) }
{}

/// A fault tree with a gate over two events is a draft; a gate without its fault tree is none.
pub fn gates_stand_in_fault_trees()
    ensures whole { IsDraft gate_draft }
    ensures stray { IsDraft stray_draft → ⊥ }
{}
