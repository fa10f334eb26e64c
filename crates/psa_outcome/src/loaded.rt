use psa_model::{Expanded, ModelFault, Ranks, Settings, Targets, Values};
use psa_text::Items;

/// A model that was read and has no fault, with what a report needs of it.
#[derive(Drop)]
pub struct Loaded {
    pub settings: Settings,
    pub expanded: Expanded,
    /// The targets of the model, in order.
    pub targets: Targets,
    /// The events of each target by rank.
    pub ranks: Items<Ranks>,
    /// The intervals of the events, exactly where quantities are computed.
    pub values: Option<Values>,
}

/// Why a model was not loaded.
#[derive(Debug, Drop)]
pub enum LoadError {
    /// The model has this first fault.
    Bad(ModelFault),
    /// The file with this number, from 0, could not be opened or read.
    Read(u32),
    /// Memory was wanting.
    Memory,
}
