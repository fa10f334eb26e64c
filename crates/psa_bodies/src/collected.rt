use psa_model::Formula;
use psa_text::Items;

/// The formulas that the instructions of a definition collect.
#[derive(Drop)]
pub struct Collected {
    /// The number of the next formula in the model.
    pub next: u32,
    pub formulas: Items<Formula>,
}
