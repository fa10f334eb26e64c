//! The draft of documents whose shape has no fault: what their elements say, one pass over each tree.
#![tactic(auto)]

mod bodies;
mod branches;
mod definitions;
mod documents;

pub use documents::draft_of_documents;
