//! The model of a draft, or its first fault of names; the promise of such a model.
#![tactic(auto)]

mod laws;
mod resolving;

pub use laws::models_keep_their_promise;
pub use psa_names::CheckError;
pub use resolving::resolve;
