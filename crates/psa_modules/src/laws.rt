//! Laws of modules, each the contract of a function that does nothing.
ghost use Rattle.std.specs.Prelude.{◌≡◌, ◌↔◌, ◌==◌, ◌≤◌, ◌&&◌, ℕ, Bool, true, List, [], ◌∷◌, length};
ghost use Rattle.psa_logic.specs.Sets.{is_ascending, occurs, Has};
ghost use Rattle.psa_logic.specs.Products.{IsMinimalCutSet};
ghost use Rattle.psa_modules.specs.Modules.{seen, whole, AreFalseAtNone, part_of, IsSubstitution, IsChoice};
ghost use Rattle.psa_modules.specs.TwoTrains.{train_of, train_fails, both_fail, four_sets};

/// Where no module's truth holds at the empty set, the minimal cut sets of the whole are exactly the
/// sets that come from one of the quotient by putting, for each module in it, a minimal cut set of
/// the module.
pub fn cut_sets_are_substitutions()
    ensures { (module_of : ℕ → ℕ) (truth_of : ℕ → (ℕ → Bool) → Bool) (quotient : (ℕ → Bool) → Bool)
        (set : List ℕ) → AreFalseAtNone truth_of
        → IsMinimalCutSet (whole module_of truth_of quotient) set
        ↔ ((modules : List ℕ) × IsMinimalCutSet quotient modules
        × IsSubstitution module_of truth_of modules set) }
{}

/// Each set comes once: it tells the modules and the part of each, and these tell it. And each choice
/// of parts gives a set.
pub fn substitutions_are_determined()
    ensures modules { (module_of : ℕ → ℕ) (truth_of : ℕ → (ℕ → Bool) → Bool)
        (one other set : List ℕ) → AreFalseAtNone truth_of → is_ascending one ≡ true
        → is_ascending other ≡ true → IsSubstitution module_of truth_of one set
        → IsSubstitution module_of truth_of other set → one ≡ other }
    ensures set { (module_of : ℕ → ℕ) (truth_of : ℕ → (ℕ → Bool) → Bool)
        (modules one other : List ℕ) → IsSubstitution module_of truth_of modules one
        → IsSubstitution module_of truth_of modules other
        → ((m : ℕ) → occurs modules m ≡ true
        → part_of module_of m one ≡ part_of module_of m other) → one ≡ other }
    ensures exists { (module_of : ℕ → ℕ) (truth_of : ℕ → (ℕ → Bool) → Bool) (modules : List ℕ)
        (choice : ℕ → List ℕ) → IsChoice module_of truth_of modules choice
        → (set : List ℕ) × IsSubstitution module_of truth_of modules set
        × ((m : ℕ) → occurs modules m ≡ true → part_of module_of m set ≡ choice m) }
{}

/// Neither the set of the quotient nor the part of a module is longer than the set that comes from
/// them, so limits on the number of events agree.
pub fn substitutions_are_longest()
    ensures quotient { (module_of : ℕ → ℕ) (truth_of : ℕ → (ℕ → Bool) → Bool)
        (modules set : List ℕ) → AreFalseAtNone truth_of → is_ascending modules ≡ true
        → IsSubstitution module_of truth_of modules set → length modules ≤ length set }
    ensures part { (module_of : ℕ → ℕ) (m : ℕ) (set : List ℕ)
        → length (part_of module_of m set) ≤ length set }
{}

/// An event outside all modules is a module of its own, whose truth is that it occurs: the quotient
/// sees it where it occurs, its minimal cut set is itself alone, and it is in a set where its number
/// is in the set of the quotient from which the set comes. And a minimal cut set has only events that
/// its truth sees.
pub fn lone_events_are_modules()
    ensures seen { (module_of : ℕ → ℕ) (truth_of : ℕ → (ℕ → Bool) → Bool) (event : ℕ)
        (s : ℕ → Bool) → truth_of (module_of event) ≡ (λ t. t event)
        → seen module_of truth_of s (module_of event) ≡ s event }
    ensures outside { (module_of : ℕ → ℕ) (truth_of : ℕ → (ℕ → Bool) → Bool)
        (modules set : List ℕ) (event : ℕ) → truth_of (module_of event) ≡ (λ t. t event)
        → IsSubstitution module_of truth_of modules set
        → occurs set event ≡ occurs modules (module_of event) }
    ensures lone { (event : ℕ) (set : List ℕ)
        → IsMinimalCutSet (λ s. s event) set ↔ (set ≡ event ∷ []) }
    ensures sees { (f : (ℕ → Bool) → Bool) (inside : ℕ → Bool) (set : List ℕ)
        → ((s : ℕ → Bool) → f s ≡ f (λ event. inside event && s event)) → IsMinimalCutSet f set
        → (event : ℕ) → occurs set event ≡ true → inside event ≡ true }
{}

/// A system of two trains, each of a pump and a valve, that fails where both do: the one minimal cut
/// set of the quotient, the four sets that come from it, and the same four as those of the system.
pub fn two_trains_fail()
    ensures trains { (modules : List ℕ) → IsMinimalCutSet both_fail modules ↔ (modules ≡ 4 ∷ 5 ∷ []) }
    ensures puts { (set : List ℕ)
        → IsSubstitution train_of train_fails (4 ∷ 5 ∷ []) set ↔ Has four_sets set }
    ensures cut_sets { (set : List ℕ)
        → IsMinimalCutSet (whole train_of train_fails both_fail) set ↔ Has four_sets set }
{}
