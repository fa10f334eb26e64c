//! Laws of the definitions, each the contract of a function that does nothing.
ghost use Rattle.std.specs.Prelude.{◌≡◌, ◌⊎◌, ◌↔◌, ℕ, Bool, true, false, List};
ghost use Rattle.psa_logic.specs.Sets.{is_ascending, is_part, occurs, Has};
ghost use Rattle.psa_logic.specs.Products.{literal_number, rank_of, is_positive, is_consistent, holds_at, IsMinimalCutSet, IsImplicant, IsPrimeImplicant, is_before, IsCutProduct, IsPrimeProduct, IsListing};

/// Report order is a strict total order of products: none stands before itself, what stands before
/// one that stands before a third stands before the third, and of two different ones one stands
/// before the other.
pub fn report_order_is_strict()
    ensures irreflexive { (one : List ℕ) → is_before one one ≡ false }
    ensures transitive { (one other third : List ℕ) → is_before one other ≡ true
        → is_before other third ≡ true → is_before one third ≡ true }
    ensures total { (one other : List ℕ)
        → (one ≡ other) ⊎ ((is_before one other ≡ true) ⊎ (is_before other one ≡ true)) }
{}

/// What a section lists is determined: two listings of the minimal cut sets of one target within one
/// limit are the same list, and so are two listings of its prime implicants.
pub fn listing_is_unique()
    ensures cut_sets { (f : (ℕ → Bool) → Bool) (limit : ℕ) (xs ys : List (List ℕ))
        → IsListing (IsCutProduct f limit) xs → IsListing (IsCutProduct f limit) ys → xs ≡ ys }
    ensures prime_implicants { (f : (ℕ → Bool) → Bool) (limit : ℕ) (xs ys : List (List ℕ))
        → IsListing (IsPrimeProduct f limit) xs → IsListing (IsPrimeProduct f limit) ys → xs ≡ ys }
{}

/// Of two sets, written as strictly ascending lists, one is a part of the other exactly where each
/// of its members is a member of the other; and a part of a set is a set.
pub fn parts_are_subsets()
    ensures subsets { (part set : List ℕ) → is_ascending part ≡ true → is_ascending set ≡ true
        → (is_part part set ≡ true) ↔ ((x : ℕ) → Has part x → Has set x) }
    ensures sets { (part set : List ℕ) → is_ascending set ≡ true → is_part part set ≡ true
        → is_ascending part ≡ true }
{}

/// A set is its members: `occurs` tests for them, and two sets with the same members are the same.
pub fn sets_are_their_members()
    ensures members { (set : List ℕ) (x : ℕ) → (occurs set x ≡ true) ↔ Has set x }
    ensures same { (one other : List ℕ) → is_ascending one ≡ true → is_ascending other ≡ true
        → ((x : ℕ) → occurs one x ≡ occurs other x) → one ≡ other }
{}

/// No minimal cut set is a part of another, and each set at which the target is true has a minimal
/// cut set as a part.
pub fn minimal_cut_sets_are_least()
    ensures apart { (f : (ℕ → Bool) → Bool) (one other : List ℕ) → IsMinimalCutSet f one
        → IsMinimalCutSet f other → is_part one other ≡ true → one ≡ other }
    ensures below { (f : (ℕ → Bool) → Bool) (set : List ℕ) → is_ascending set ≡ true
        → f (occurs set) ≡ true → (part : List ℕ) × (is_part part set ≡ true)
        × IsMinimalCutSet f part }
{}

/// A literal number tells its rank and whether its event occurs, and these two tell the number.
pub fn literal_numbers_are_read_back()
    ensures rank { (rank : ℕ) (occurring : Bool) → rank_of (literal_number rank occurring) ≡ rank }
    ensures sign { (rank : ℕ) (occurring : Bool)
        → is_positive (literal_number rank occurring) ≡ occurring }
    ensures number { (literal : ℕ)
        → literal_number (rank_of literal) (is_positive literal) ≡ literal }
{}

/// A product is consistent exactly where it holds for some occurrence of events.
pub fn consistent_products_hold()
    ensures { (product : List ℕ) → is_ascending product ≡ true
        → (is_consistent product ≡ true) ↔ ((s : ℕ → Bool) × (holds_at s product ≡ true)) }
{}

/// Of the parts of a prime implicant only the whole is an implicant, however many literals are
/// dropped.
pub fn prime_implicants_are_least()
    ensures { (f : (ℕ → Bool) → Bool) (product part : List ℕ) → IsPrimeImplicant f product
        → is_part part product ≡ true → IsImplicant f part → part ≡ product }
{}
