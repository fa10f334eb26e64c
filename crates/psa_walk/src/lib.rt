//! The targets of a model: its top events, and the sequences of its event trees with all paths to
//! them.
#![tactic(auto)]

mod branches;
mod conditions;
mod gathered;
mod groups;
mod instructions;
mod listing;
mod tops;
mod travelled;
mod walk;

pub use listing::{WalkError, targets};
