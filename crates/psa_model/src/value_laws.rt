//! What can be said of values in general. The functions do nothing: their contracts are the laws.
ghost use Rattle.std.specs.Prelude.{◌≡◌, ◌≤◌, ℕ, suc, true, All, length, List, Ok};
ghost use Rattle.std.specs.List.{AllZip};
ghost use Rattle.psa_number.specs.Ends.{Ends};
ghost use Rattle.psa_number.specs.Exponential.{last_term};
ghost use Rattle.psa_number.specs.Fraction.{Holds};
ghost use Rattle.psa_number.specs.Operations.{IsInUnit};
ghost use Rattle.psa_number.specs.Scaled.{Scaled};
ghost use Rattle.psa_model.specs.declared.expanded.Expanded.{Expanded};
ghost use Rattle.psa_model.specs.declared.expression.Expression.{Expression};
ghost use Rattle.psa_model.specs.declared.model.Model.{Model};
ghost use Rattle.psa_model.specs.Divisors.{divide_rightly, divides_rightly};
ghost use Rattle.psa_model.specs.Values.{exact_value, interval_value, quantities_of, value_within, values_of};

/// More levels than an expression's depth change neither its exact value nor its interval, and what is
/// within some levels is within more.
pub fn more_levels_change_no_value()
    ensures within { (n : ℕ) (model : Model) (e : Expression)
        → value_within n model e ≡ true → value_within (suc n) model e ≡ true }
    ensures exact { (n terms : ℕ) (mission : Scaled) (model : Model) (e : Expression)
        → value_within n model e ≡ true
        → exact_value (suc n) terms mission model e ≡ exact_value n terms mission model e }
    ensures interval { (n : ℕ) (mission : Scaled) (model : Model) (e : Expression)
        → value_within n model e ≡ true
        → interval_value (suc n) mission model e ≡ interval_value n mission model e }
{}

/// The interval of an expression holds its exact value, and that of an event its exact quantity, for
/// every number of Taylor terms from the 160th power on.
pub fn intervals_hold_exact_values()
    ensures value { (n terms : ℕ) → last_term ≤ terms
        → (mission : Scaled) (model : Model) (e : Expression) (a : Ends)
        → interval_value n mission model e ≡ Ok a → Holds a (exact_value n terms mission model e) }
    ensures events { (terms : ℕ) → last_term ≤ terms
        → (mission : Scaled) (expanded : Expanded) (values : List Ends)
        → values_of mission expanded ≡ Ok values
        → AllZip Holds values (quantities_of terms mission expanded) }
{}

/// No interval rests on a quotient by 0: where an expression has an interval, each divisor in it, and in the
/// parameters that it reaches, has an exact value other than 0, for every number of Taylor terms from the
/// 160th power on. Where all events have an interval, so it is with their expressions.
pub fn intervals_divide_by_no_zero()
    ensures value { (n terms : ℕ) → last_term ≤ terms
        → (mission : Scaled) (model : Model) (e : Expression) (a : Ends)
        → interval_value n mission model e ≡ Ok a
        → divides_rightly n terms mission model e ≡ true }
    ensures events { (terms : ℕ) → last_term ≤ terms
        → (mission : Scaled) (expanded : Expanded) (values : List Ends)
        → values_of mission expanded ≡ Ok values → divide_rightly terms mission expanded ≡ true }
{}

/// Where all events have an interval, there is one for each, and it lies within 0 and 1.
pub fn values_lie_in_unit()
    ensures { (mission : Scaled) (expanded : Expanded) (values : List Ends)
        → values_of mission expanded ≡ Ok values
        → (length values ≡ length expanded.events) × All IsInUnit values }
{}
