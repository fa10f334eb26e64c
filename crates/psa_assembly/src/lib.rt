//! The model of a draft whose names are found and without fault.
#![tactic(auto)]

mod adding;
mod assembly;
mod groups;
mod model;
mod values;

pub use model::model_of_found;
