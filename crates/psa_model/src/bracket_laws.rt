//! What can be said of bounds and totals in general. The function does nothing: its contract is the law.
ghost use Rattle.std.specs.Prelude.{◌≡◌, ◌≤◌, ℕ, List, map, Ok};
ghost use Rattle.psa_number.specs.Ends.{Ends};
ghost use Rattle.psa_number.specs.Exponential.{last_term};
ghost use Rattle.psa_number.specs.Fraction.{Holds};
ghost use Rattle.psa_number.specs.Scaled.{Scaled};
ghost use Rattle.psa_model.specs.declared.expanded.Expanded.{Expanded};
ghost use Rattle.psa_model.specs.declared.ids.EventNumber.{EventNumber};
ghost use Rattle.psa_model.specs.ExactQuantities.{exact_bound, exact_min_cut, exact_rare_event};
ghost use Rattle.psa_model.specs.Quantities.{bound_of, min_cut_of, rare_event_of};
ghost use Rattle.psa_model.specs.Values.{quantities_of, values_of};

/// The bound of each product, and the rare-event sum and min-cut upper bound of each list of products,
/// hold their exact values, for every number of Taylor terms from the 160th power on.
pub fn bounds_hold_exact_values()
    ensures bound { (terms : ℕ) → last_term ≤ terms
        → (mission : Scaled) (expanded : Expanded) (values : List Ends)
        → values_of mission expanded ≡ Ok values
        → (ranks : List EventNumber) (product : List ℕ)
        → Holds (bound_of values ranks product)
        (exact_bound (quantities_of terms mission expanded) ranks product) }
    ensures rare_event { (terms : ℕ) → last_term ≤ terms
        → (mission : Scaled) (expanded : Expanded) (values : List Ends)
        → values_of mission expanded ≡ Ok values
        → (ranks : List EventNumber) (products : List (List ℕ))
        → Holds (rare_event_of (map (bound_of values ranks) products))
        (exact_rare_event
        (map (exact_bound (quantities_of terms mission expanded) ranks) products)) }
    ensures min_cut { (terms : ℕ) → last_term ≤ terms
        → (mission : Scaled) (expanded : Expanded) (values : List Ends)
        → values_of mission expanded ≡ Ok values
        → (ranks : List EventNumber) (products : List (List ℕ))
        → Holds (min_cut_of (map (bound_of values ranks) products))
        (exact_min_cut (map (exact_bound (quantities_of terms mission expanded) ranks) products)) }
{}
