ghost use Rattle.std.specs.Prelude.{◌≡◌, ◌≤◌, ◌∷◌, ◌++◌, ℕ, List, [], map, Ok};
ghost use Rattle.psa_number.specs.Ends.{Ends};
ghost use Rattle.psa_number.specs.Exponential.{last_term};
ghost use Rattle.psa_number.specs.Fraction.{Holds};
ghost use Rattle.psa_number.specs.Operations.{IsInUnit, complement_ends, unit_product_ends};
ghost use Rattle.psa_number.specs.Scaled.{Scaled};
ghost use Rattle.psa_model.specs.declared.expanded.Expanded.{Expanded};
ghost use Rattle.psa_model.specs.declared.ids.EventNumber.{EventNumber};
ghost use Rattle.psa_model.specs.ExactQuantities.{exact_bound, exact_min_cut, exact_rare_event};
ghost use Rattle.psa_model.specs.Quantities.{bound_of};
ghost use Rattle.psa_model.specs.Values.{quantities_of, values_of};
ghost use Rattle.psa_products.specs.Sums.{sums_of, taken};

use psa_model::MAX_COUNT;
use psa_number::{Interval, UNITS, add_in_unit, complement, times_in_unit};
use std::marker::Model;

/// The totals over the products of a list, in units of 10^-12: their count, held at `MAX_COUNT`, the rare-event
/// sum, held at 1, and what the min-cut upper bound leaves of 1: that bound is the complement of `rest`.
#[derive(Clone, Copy, Debug)]
pub struct Totals {
    pub count: u64,
    pub rare_event: Interval,
    pub rest: Interval,
}

impl Model for Totals {
    ghost use Rattle.psa_products.specs.Sums.{Sums, AreSums};

    ghost Value = { Sums };

    ghost view = { λ t.
        record { count = t.count; rare_event = t.rare_event; rest = t.rest } };

    ghost inverse = { λ s.
        record { count = s.count; rare_event = s.rare_event; rest = s.rest } };

    ghost invariant = { λ t.
        AreSums (record { count = t.count; rare_event = t.rare_event; rest = t.rest }) };
}

impl Totals {
    /// The totals of no product.
    pub fn new() -> Totals
        ensures { result ≡ sums_of [] }
    {
        let one = i128::from(UNITS);
        Totals {
            count: 0,
            rare_event: Interval { lo: 0, hi: 0 },
            rest: Interval { lo: one, hi: one },
        }
    }

    /// Takes one more product with this bound, which is within 0 and 1.
    pub fn take(&mut self, bound: Interval)
        requires { IsInUnit bound }
        ensures exact { self.new ≡ taken self.old bound }
        ensures taken { (bounds : List Ends) → self.old ≡ sums_of bounds
            → self.new ≡ sums_of (bounds ++ bound ∷ []) }
        ensures rare_event { (terms : ℕ) → last_term ≤ terms
            → (mission : Scaled) (expanded : Expanded) (values : List Ends)
            → values_of mission expanded ≡ Ok values
            → (ranks : List EventNumber) (products : List (List ℕ))
            → self.new ≡ sums_of (map (bound_of values ranks) products)
            → Holds self.new.rare_event
            (exact_rare_event (map
            (exact_bound (quantities_of terms mission expanded) ranks) products)) }
        ensures min_cut { (terms : ℕ) → last_term ≤ terms
            → (mission : Scaled) (expanded : Expanded) (values : List Ends)
            → values_of mission expanded ≡ Ok values
            → (ranks : List EventNumber) (products : List (List ℕ))
            → self.new ≡ sums_of (map (bound_of values ranks) products)
            → Holds (complement_ends self.new.rest)
            (exact_min_cut (map
            (exact_bound (quantities_of terms mission expanded) ranks) products)) }
    {
        self.take_sum(bound);
        self.rest = rest_with(self.rest, bound);
    }

    /// Takes one more product with this bound into the count and the rare-event sum alone, where nobody asks for the
    /// min-cut upper bound.
    pub fn take_sum(&mut self, bound: Interval)
        requires { IsInUnit bound }
        ensures { self.new ≡ record (taken self.old bound) { rest = self.old.rest } }
    {
        self.count = (self.count + 1).min(MAX_COUNT);
        self.rare_event = add_in_unit(self.rare_event, bound);
    }
}

/// What is left of 1 with one bound more.
fn rest_with(rest: Interval, bound: Interval) -> Interval
    requires rest { IsInUnit rest }
    requires bound { IsInUnit bound }
    ensures exact { result ≡ unit_product_ends rest (complement_ends bound) }
    ensures in_unit { IsInUnit result }
{
    // A bound of 0, as each has where no quantities are asked for, takes nothing away: no division is made.
    if bound.hi > 0 {
        times_in_unit(rest, complement(bound))
    } else {
        rest
    }
}
