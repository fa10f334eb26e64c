//! The draft of a model's files: the first fault of shape of their trees, or what their elements say, which
//! keeps the promise of a draft.
#![tactic(auto)]

mod laws;
mod reading;

pub use laws::drafts_keep_their_promise;
pub use psa_elements::ReadError;
pub use reading::read_model;
