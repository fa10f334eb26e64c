//! Laws of chains and depths, each the contract of a function that does nothing.
ghost use Rattle.std.specs.Prelude.{◌≡◌, ◌≤◌, ℕ, suc, true, length};
ghost use Rattle.psa_names.specs.Chains.{Chain, is_within, leads};
ghost use Rattle.psa_names.specs.Outlines.{Entries, Entry, Outline};

/// `leads` with so many steps is the test of a chain of at most so many references, and with as
/// many steps as there are definitions the test of any chain.
pub fn leads_is_a_chain()
    ensures chain { (steps : ℕ) (entries : Entries) (from to : ℕ)
        → leads steps entries from to ≡ true
        → (few : ℕ) × (few ≤ steps) × Chain entries to few from }
    ensures leads { (steps few : ℕ) (entries : Entries) (from to : ℕ) → few ≤ steps
        → Chain entries to few from → leads steps entries from to ≡ true }
    ensures enough { (steps : ℕ) (entries : Entries) (from to : ℕ)
        → Chain entries to steps from → leads (length entries) entries from to ≡ true }
{}

/// What is within some levels is within more.
pub fn more_levels_change_nothing()
    ensures { (levels : ℕ) (entries : Entries) (from : Entry) (outline : Outline)
        → is_within levels entries from outline ≡ true
        → is_within (suc levels) entries from outline ≡ true }
{}
